ghost use Rattle.std.specs.Prelude.{◌≡◌};
ghost use Rattle.trace_words.specs.Letter.{letter};

use crate::cause::Cause;

/// The number of the process that a word of one capital letter names: 0 for A to 25 for Z.
///
/// # Errors
/// `UnknownWord` if it is any other word.
pub fn letter(word: &[u8]) -> Result<u32, Cause>
    ensures { result ≡ letter word.now }
{
    match word {
        [byte] => match *byte {
            b'A'..=b'Z' => Ok(u32::from(*byte - b'A')),
            _ => Err(Cause::UnknownWord),
        },
        _ => Err(Cause::UnknownWord),
    }
}
