ghost use Rattle.std.specs.Prelude.{◌≡◌, ◌<◌, ◌≤◌, length, OnOk, IfOk, IfSome, IsSome};
ghost use Rattle.dump_bytes.specs.Bounds.{IsDump};
ghost use Rattle.dump_bytes.specs.Dumped.{dumped};
ghost use Rattle.dump_bytes.specs.Outcome.{AnswersDump, FaultsByDump, answer_of};
ghost use Rattle.dump_bytes.specs.Room.{IsRoomy};

use crate::dump::Dump;
use crate::fault::DumpFault;
use crate::fill::fill;
use crate::room::dump_with_room;
use crate::whole::whole_in;
use outside_io::Source;
use std::alloc::{AllocError, Global};

// One byte more than the longest dump has.
const ROOM: usize = 786_793;

/// Reads a dump, which is all that the source gives. Memory for the longest dump, of 786,792 bytes,
/// is taken before anything is read; no more than one byte above that is read.
///
/// # Errors
/// `Bad(n)` exactly if the first n bytes begin some dump and no dump begins with those and the next
/// byte, or the input ends after n bytes, and these begin some dump and aren't a whole one.
/// `ReadFault` only if the source's count of failures rose; the bytes read begin some dump then.
/// `NoMemory` if memory ran out; nothing was read then.
pub fn read_dump<S: Source>(alloc: Global, source: &mut S) -> Result<Dump, DumpFault>
    ensures bounds { IfOk result (λ dump. IsDump (dumped dump)) }
    ensures text { IfSome (S.seen source.old).left (λ text. AnswersDump result text (S.seen source.new).left) }
    ensures known { IsSome (S.seen source.old).left → IsSome (S.seen source.new).left }
    ensures faults { FaultsByDump result (S.seen source.old).failures (S.seen source.new).failures }
    ensures faults_later { (S.seen source.old).failures ≤ (S.seen source.new).failures }
{
    let mut dump = dump_with_room(alloc)?;
    let mut buffer = zeros(alloc, ROOM)?;
    match read_into(source, buffer.as_mut_slice(), &mut dump) {
        Ok(()) => Ok(dump),
        Err(fault) => Err(fault),
    }
}

/// So many bytes.
fn zeros(alloc: Global, count: usize) -> Result<Vec<u8>, AllocError>
    ensures { IfOk result (λ buffer. length buffer.items ≡ count) }
{
    vec![in alloc; 0; count]
}

/// Reads a dump into one with room, by way of a buffer that is longer than any dump.
fn read_into<S: Source>(source: &mut S, buffer: &mut [u8], dump: &mut Dump) -> Result<(), DumpFault>
    requires room { IsRoomy dump.old }
    requires long { 786792 < length buffer.old }
    ensures bounds { OnOk result (IsDump (dumped dump.new)) }
    ensures text { IfSome (S.seen source.old).left (λ text. AnswersDump (answer_of dump.new result) text (S.seen source.new).left) }
    ensures known { IsSome (S.seen source.old).left → IsSome (S.seen source.new).left }
    ensures faults { FaultsByDump (answer_of dump.new result) (S.seen source.old).failures (S.seen source.new).failures }
    ensures faults_later { (S.seen source.old).failures ≤ (S.seen source.new).failures }
{
    let (held, ended) = fill(source, buffer);
    match (whole_in(&buffer[..held], dump), ended) {
        (Ok(()), Ok(())) => Ok(()),
        (Err(left), Ok(())) => Err(DumpFault::Bad((held - left.0) as u64)),
        (Err(left), Err(_)) if left.0 > 0 => Err(DumpFault::Bad((held - left.0) as u64)),
        (_, Err(_)) => Err(DumpFault::ReadFault),
    }
}
