ghost use Rattle.std.specs.Prelude.{◌≡◌, ◌+◌, ◌<◌, if◌then◌else◌};

/// How many lifts of a carrier landed well and how many badly, at most 16 together; and whether the first
/// one landed badly.
#[derive(Clone, Copy, Debug, PartialEq, Eq)]
pub struct Landed {
    pub good: u32,
    pub bad: u32,
    pub first_bad: bool,
}

/// The numbers with one lift more, which may be the first one.
pub fn one_more(landed: Landed, first: bool, failed: bool) -> Landed
    requires { landed.good + landed.bad < 16 }
    ensures good { result.good ≡ landed.good + (if failed then 0 else 1) }
    ensures bad { result.bad ≡ landed.bad + (if failed then 1 else 0) }
    ensures first { result.first_bad ≡ (if first then failed else landed.first_bad) }
{
    Landed {
        good: landed.good + u32::from(!failed),
        bad: landed.bad + u32::from(failed),
        first_bad: if first { failed } else { landed.first_bad },
    }
}
