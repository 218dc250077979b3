ghost use Rattle.std.specs.Prelude.{◌≡◌};
ghost use Rattle.trace_words.specs.OpWords.{access_of, with_mode, op_name};

use vm_types::{Mode, Width};

/// What a reference does, without its value.
#[derive(Clone, Copy, Debug, PartialEq, Eq)]
pub enum Access {
    /// Reads so many bytes.
    Read(Width),
    /// Writes so many bytes.
    Write(Width),
    /// Adds to a longword, interlocked.
    Add,
}

/// What a reference does, and in which mode.
#[derive(Clone, Copy, Debug, PartialEq, Eq)]
pub struct OpName {
    pub mode: Mode,
    pub access: Access,
}

fn access_of(word: &[u8]) -> Option<Access>
    ensures { result ≡ access_of word.now }
{
    match word {
        [b'R', b'1'] => Some(Access::Read(Width::One)),
        [b'R', b'2'] => Some(Access::Read(Width::Two)),
        [b'R', b'4'] => Some(Access::Read(Width::Four)),
        [b'W', b'1'] => Some(Access::Write(Width::One)),
        [b'W', b'2'] => Some(Access::Write(Width::Two)),
        [b'W', b'4'] => Some(Access::Write(Width::Four)),
        [b'A', b'4'] => Some(Access::Add),
        _ => None,
    }
}

fn with_mode(mode: Mode, word: &[u8]) -> Option<OpName>
    ensures { result ≡ with_mode mode word.now }
{
    match access_of(word) {
        Some(access) => Some(OpName { mode, access }),
        None => None,
    }
}

/// The operation of this name: R1, R2, R4, W1, W2, W4 or A4 with the letter of its mode before it, or
/// with none for user mode.
pub fn op_name(word: &[u8]) -> Option<OpName>
    ensures { result ≡ op_name word.now }
{
    let (first, rest) = word.split_first()?;
    match *first {
        b'K' => with_mode(Mode::K, rest),
        b'E' => with_mode(Mode::E, rest),
        b'S' => with_mode(Mode::S, rest),
        b'U' => with_mode(Mode::U, rest),
        _ => with_mode(Mode::U, word),
    }
}
