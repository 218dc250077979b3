ghost use Rattle.std.specs.Prelude.{◌≡◌, ◌≢◌, ◌↔◌, IsTrue, ℕ, ◌+◌, ◌≤◌, ◌++◌, ◌∷◌, List, length, All, MatchOption};
ghost use Rattle.arrayvec.specs.ArrayVec.{array_vec_len};
ghost use Rattle.vm_text.specs.Spaced.{IsOther};

use arrayvec::ArrayVec;

/// Adds these bytes. Doesn't allocate.
#[inline(always)]
pub fn push_word<const CAP: usize>(out: &mut ArrayVec<u8, CAP>, word: &[u8])
    requires { array_vec_len out.old + length word.now ≤ CAP }
    ensures items { out.new.items ≡ out.old.items ++ word.now }
    ensures len { array_vec_len out.new ≡ array_vec_len out.old + length word.now }
{
    out.try_extend_from_slice(word).unwrap();
}

/// What stands before the first such byte, and what stands after it. Doesn't allocate.
#[inline(always)]
pub fn cut(text: &[u8], byte: u8) -> Option<(&[u8], &[u8])>
    ensures { MatchOption result (All (IsOther byte) text.now)
        (λ x. All (IsOther byte) x.0.now × (text.now ≡ x.0.now ++ byte ∷ x.1.now)) }
{
    let at = text.iter().position(|b| *b == byte)?;
    let (front, back) = text.split_at(at);
    Some((front, &back[1..]))
}

/// What stands behind these bytes, which the word begins with. Doesn't allocate.
#[inline(always)]
pub fn after<'a>(word: &'a [u8], front: &[u8]) -> Option<&'a [u8]>
    ensures { MatchOption result ((rest : List ℕ) → word.now ≢ front.now ++ rest) (λ rest. word.now ≡ front.now ++ rest.now) }
{
    word.strip_prefix(front)
}

/// Whether the word is this one. Doesn't allocate.
#[inline(always)]
pub fn is(word: &[u8], name: &[u8]) -> bool
    ensures { IsTrue result ↔ (name.now ≡ word.now) }
{
    word == name
}
