ghost use Rattle.std.specs.Prelude.{◌≡◌, ◌<◌, ◌≤◌, length, take, OnOk, IsSome};
ghost use Rattle.std.specs.Io.KnownBytes.{Consumes, IsAtEnd};
ghost use Rattle.outside_io.specs.Causes.{HasCause};

use outside_io::{Source, read_more};
use vm_types::Failed;

/// Fills the buffer from its front, to the end of the input if it has room: how many bytes were
/// read, and whether a read failed after them.
pub(crate) fn fill<S: Source>(source: &mut S, buffer: &mut [u8]) -> (usize, Result<(), Failed>)
    ensures bound { result.0 ≤ length buffer.new }
    ensures bytes { Consumes (S.seen source.old).left (S.seen source.new).left (take result.0 buffer.new) }
    ensures end { OnOk result.1 (result.0 < length buffer.new → IsAtEnd (S.seen source.new).left) }
    ensures known { IsSome (S.seen source.old).left → IsSome (S.seen source.new).left }
    ensures cause { HasCause (S.seen source.old).failures (S.seen source.new).failures result.1 }
    ensures quiet { OnOk result.1 ((S.seen source.new).failures ≡ (S.seen source.old).failures) }
{
    let mut held = 0;
    while held < buffer.len() {
        match read_more(source, buffer, held) {
            Ok(0) => return (held, Ok(())),
            Ok(count) => held += count,
            Err(failed) => return (held, Err(failed)),
        }
    }
    (held, Ok(()))
}
