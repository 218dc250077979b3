ghost use Rattle.std.specs.Prelude.{◌≡◌};
ghost use Rattle.dump_bytes.specs.Answers.{Gives};
ghost use Rattle.dump_bytes.specs.Dumped.{dumped};
ghost use Rattle.dump_bytes.specs.Reading.{dump_at, whole_at};
ghost use Rattle.dump_bytes.specs.Room.{IsRoomy};

use crate::dump::Dump;
use crate::left::Left;
use crate::lists::{frames_in, numbers_in, processes_in, rising_in};
use crate::reading::{letters_in, number_in};
use vm_types::MOST_FRAMES;

/// Puts the dump with which the bytes begin into one with room; the bytes after it.
fn dump_in<'a>(bytes: &'a [u8], dump: &mut Dump) -> Result<&'a [u8], Left>
    requires { IsRoomy dump.old }
    ensures { Gives (λ rest. (dumped dump.new, rest.now)) result (dump_at bytes.now) }
{
    let rest = letters_in(bytes)?;
    let (frames, rest) = number_in(rest, 8, MOST_FRAMES)?;
    let (free, rest) = number_in(rest, 0, frames)?;
    let (modified, rest) = number_in(rest, 0, frames)?;
    let (procs, rest) = number_in(rest, 1, 16)?;
    let (size, rest) = number_in(rest, 0, u32::MAX)?;
    let (charged, rest) = number_in(rest, 0, u32::MAX)?;
    let (assigned, rest) = number_in(rest, 0, u32::MAX)?;
    dump.size = size;
    dump.charged = charged;
    dump.assigned = assigned;
    let rest = frames_in(rest, frames, procs, &mut dump.frames)?;
    let rest = numbers_in(rest, free, frames - 1, &mut dump.free)?;
    let rest = numbers_in(rest, modified, frames - 1, &mut dump.modified)?;
    let rest = processes_in(rest, procs, frames, &mut dump.procs)?;
    let (flights, rest) = number_in(rest, 0, frames)?;
    rising_in(rest, flights, frames, &mut dump.flights)
}

/// Puts the dump that the bytes are into one with room.
pub(crate) fn whole_in(bytes: &[u8], dump: &mut Dump) -> Result<(), Left>
    requires { IsRoomy dump.old }
    ensures { Gives (λ _. dumped dump.new) result (whole_at bytes.now) }
{
    let rest = dump_in(bytes, dump)?;
    if rest.is_empty() {
        Ok(())
    } else {
        Err(Left(rest.len()))
    }
}
