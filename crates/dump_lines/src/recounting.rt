//! The recount of a dump.

ghost use Rattle.std.specs.Prelude.{◌≡◌, ◌+◌, ◌*◌, ◌<◌, ◌≤◌, [], ◌∷◌, IfOk, length, map, nat_lt, replicate, slice_index, if◌then◌else◌};
ghost use Rattle.std.specs.List.{AllByRecursion, range_with_len};
ghost use Rattle.vm_types.specs.declared.limits.TheConstants.{MOST_EXTENT};
ghost use Rattle.dump_bytes.specs.Bounds.{IsDump, IsProcess};
ghost use Rattle.dump_bytes.specs.Dumped.{dumped, process_of};
ghost use Rattle.dump_lines.specs.Counts.{recount_of};
ghost use Rattle.dump_lines.specs.Gathered.{counts_at};
ghost use Rattle.dump_lines.specs.Pins.{pins_in};
ghost use Rattle.dump_lines.specs.Raised.{AreRaised, HaveRoom};
ghost use Rattle.dump_lines.specs.Tallies.{shares_in};

use crate::counting::{count_entries, count_members};
use crate::counts::Counts;
use crate::pins::count_pins;
use dump_bytes::{Dump, ProcRec};
use std::alloc::Global;
use vm_types::NoMemory;

/// No count yet of so many frames.
fn no_counts(alloc: Global, frames: usize) -> Result<Vec<u32>, NoMemory>
    ensures { IfOk result (λ counts. counts.items ≡ replicate frames 0) }
{
    Ok(vec![in alloc; 0; frames]?)
}

/// Adds the valid entries of a process to the shares of their frames, and its pinned slots to the uses
/// of theirs.
fn count_process(proc: &ProcRec, shares: &mut [u32], uses: &mut [u32])
    requires bounds { IsProcess (length shares.old) (process_of proc.now) }
    requires same { length uses.old ≡ length shares.old }
    requires room { HaveRoom MOST_EXTENT shares.old }
    requires room_for_uses { HaveRoom MOST_EXTENT uses.old }
    ensures shares { AreRaised (shares_in (process_of proc.now ∷ [])) shares.old shares.new }
    ensures uses { AreRaised (pins_in (process_of proc.now ∷ [])) uses.old uses.new }
{
    count_entries(&proc.words, shares);
    count_pins(&proc.slots, &proc.words, uses);
}

/// The same of some processes.
fn count_processes(procs: &[ProcRec], shares: &mut [u32], uses: &mut [u32])
    requires bounds { AllByRecursion (IsProcess (length shares.old)) (map process_of procs.now) }
    requires same { length uses.old ≡ length shares.old }
    requires room { HaveRoom (MOST_EXTENT * length procs.now) shares.old }
    requires room_for_uses { HaveRoom (MOST_EXTENT * length procs.now) uses.old }
    ensures shares { AreRaised (shares_in (map process_of procs.now)) shares.old shares.new }
    ensures uses { AreRaised (pins_in (map process_of procs.now)) uses.old uses.new }
{
    for proc in procs {
        count_process(proc, shares, uses);
    }
}

/// The counts of each frame, by number. A share is a use of its frame, however many there are.
fn gather(
    alloc: Global,
    shares: &[u32],
    uses: &[u32],
    free: &[u32],
    modified: &[u32],
) -> Result<Vec<Counts>, NoMemory>
    requires uses { length uses.now ≡ length shares.now }
    requires free { length free.now ≡ length shares.now }
    requires modified { length modified.now ≡ length shares.now }
    requires room { HaveRoom 1 uses.now }
    ensures { IfOk result (λ counts. counts.items ≡ map (counts_at shares.now uses.now free.now modified.now) (range_with_len 0 (length shares.now))) }
{
    let mut counts = Vec::with_capacity(alloc, shares.len())?;
    for f in 0..shares.len() {
        counts.push(Counts {
            refs: u32::from(shares[f] > 0) + uses[f],
            shares: shares[f],
            free: free[f],
            modified: modified[f],
        })?;
    }
    Ok(counts)
}

/// What the lists of a dump say of each page frame, by its number. Each list is passed once; the entry
/// of a pinned slot's page is found by halving the list of its process.
///
/// # Errors
/// `NoMemory` if out of memory.
pub fn recount(alloc: Global, dump: &Dump) -> Result<Vec<Counts>, NoMemory>
    requires { IsDump (dumped dump.now) }
    ensures { IfOk result (λ counts. counts.items ≡ recount_of (dumped dump.now)) }
{
    let frames = dump.frames.len();
    let mut shares = no_counts(alloc, frames)?;
    let mut uses = no_counts(alloc, frames)?;
    let mut free = no_counts(alloc, frames)?;
    let mut modified = no_counts(alloc, frames)?;
    count_processes(&dump.procs, &mut shares, &mut uses);
    count_members(&dump.flights, &mut uses);
    count_members(&dump.free, &mut free);
    count_members(&dump.modified, &mut modified);
    gather(alloc, &shares, &uses, &free, &modified)
}
