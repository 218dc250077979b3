ghost use Rattle.std.specs.Prelude.{◌≡◌, ◌+◌, ◌-◌, ◌<◌, ◌≤◌, [], ◌∷◌, ◌++◌, Some, length};
ghost use Rattle.vm_state.specs.History.{entry_by};

use run_record::RunRecord;
use state_parts::SpokenRow;
use vm_journal::{Entry, What};
use vm_types::Seat;

/// Adds an entry that answers the seat's process, whose spoken row is given.
#[inline(always)]
pub(crate) fn speak(journal: &mut RunRecord, spoken: &mut SpokenRow, seat: Seat, what: What)
    requires room { 0 < journal.old.spare }
    requires few { spoken.old.count ≤ length journal.old.entries }
    ensures entry { journal.new ≡ record journal.old { entries = journal.old.entries ++ entry_by seat what ∷ []; spare = journal.old.spare - 1 } }
    ensures row { spoken.new ≡ record { last = Some (length journal.old.entries + 1); count = spoken.old.count + 1 } }
{
    spoken.last = Some(journal.len() + 1);
    spoken.count += 1;
    journal.push(Entry { seat, what });
}
