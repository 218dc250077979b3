ghost use Rattle.policy_ends.specs.Laws.{
  AnswersAreBounded,
  BodiesAreBounded,
  MovesAreBounded,
  MovesLower,
  RanksAreSmall,
};

/// Each move of the policy outside the rundown lowers the policy's rank.
pub fn moves_lower()
    ensures { MovesLower }
{}

/// The numbers of a rank are small, so a rank is one number, and no more moves than that number can follow
/// before the rundown. Those that answer no request are fewer than a fixed number, and those of a whole body
/// are fewer than that number for each request and once more.
pub fn moves_are_bounded()
    ensures small { RanksAreSmall }
    ensures moves { MovesAreBounded }
    ensures answers { AnswersAreBounded }
    ensures bodies { BodiesAreBounded }
{}
