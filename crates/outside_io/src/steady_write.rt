ghost use Rattle.std.specs.Prelude.{◌≡◌, is_some, refl};

use std::io::{Stderr, Stdout, Write};

/// One of std's writers whose type alone says whether the bytes that it holds are known: they are of
/// all writers of the type, or of none.
pub trait SteadyWrite: Write {
    ghost steady: { (a b : Self) → is_some (Self.contents a) ≡ is_some (Self.contents b) };
}

impl SteadyWrite for Vec<u8> {
    ghost steady = { λ a b. refl };
}

impl<W: SteadyWrite> SteadyWrite for &mut W {
    ghost steady = { λ a b. W.steady a.now b.now };
}

impl SteadyWrite for Stdout {
    ghost steady = { λ a b. refl };
}

impl SteadyWrite for Stderr {
    ghost steady = { λ a b. refl };
}
