ghost use Rattle.std.specs.Prelude.{◌≡◌};
ghost use Rattle.trace_words.specs.Protection.{protection};

use crate::cause::Cause;
use vm_text::read_protection;

/// The protection code of this name: 0 to 15, but not 1, which has no name in a trace.
///
/// # Errors
/// `UnknownWord` if it is the name of none.
pub fn protection(word: &[u8]) -> Result<u8, Cause>
    ensures { result ≡ protection word.now }
{
    read_protection(word).ok_or(Cause::UnknownWord)
}
