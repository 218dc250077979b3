ghost use Rattle.std.specs.Prelude.{◌≡◌, length, All, IfOk};
ghost use Rattle.dump_bytes.specs.Room.{HasRoom, IsRoomy};

use crate::dump::{Dump, ProcRec};
use std::alloc::{AllocError, Global};
use vm_types::{MOST_EXTENT, MOST_FRAMES};

// The most frames of a dump.
const FRAMES: usize = MOST_FRAMES as usize;

// The most processes of a dump.
const PROCS: usize = 16;

// The most slots of a process, and so the most valid entries.
const SLOTS: usize = MOST_EXTENT as usize;

/// A process without slots and entries, and room for as many as there can be.
fn process_with_room(alloc: Global) -> Result<ProcRec, AllocError>
    ensures { IfOk result HasRoom }
{
    Ok(ProcRec {
        status: 0,
        hand: 0,
        limit: 0,
        slots: Vec::with_capacity(alloc, SLOTS)?,
        words: Vec::with_capacity(alloc, SLOTS)?,
    })
}

/// As many such processes as there can be.
fn processes_with_room(alloc: Global) -> Result<Vec<ProcRec>, AllocError>
    ensures count { IfOk result (λ procs. length procs.items ≡ 16) }
    ensures room { IfOk result (λ procs. All HasRoom procs.items) }
{
    let mut procs = Vec::with_capacity(alloc, PROCS)?;
    while procs.len() < PROCS {
        procs.push(process_with_room(alloc)?).unwrap();
    }
    Ok(procs)
}

/// A dump with empty lists and as many processes as there can be, and room for all the rest.
pub(crate) fn dump_with_room(alloc: Global) -> Result<Dump, AllocError>
    ensures { IfOk result IsRoomy }
{
    Ok(Dump {
        frames: Vec::with_capacity(alloc, FRAMES)?,
        free: Vec::with_capacity(alloc, FRAMES)?,
        modified: Vec::with_capacity(alloc, FRAMES)?,
        size: 0,
        charged: 0,
        assigned: 0,
        procs: processes_with_room(alloc)?,
        flights: Vec::with_capacity(alloc, FRAMES)?,
    })
}
