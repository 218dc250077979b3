ghost use Rattle.std.specs.Prelude.{◌≡◌, ◌++◌, List, true, IfOk, OnOk};
ghost use Rattle.vm_journal.specs.declared.entry.Entry.{Entry};
ghost use Rattle.pager_model.specs.Order.{IsAnswered};
ghost use Rattle.pager_policy.specs.Serial.{IsRundown};
ghost use Rattle.pager_model.specs.Spoken.{IsRight};
ghost use Rattle.pager_model.specs.DirtyPages.{dirty_pages};
ghost use Rattle.vm_state.specs.History.{pager};
ghost use Rattle.call_begins.specs.MayBegin.{empty};
ghost use Rattle.serial_laws.specs.Between.{IsBetween};
ghost use Rattle.carried_landings.specs.Moved.{IsSameBut};
ghost use Rattle.rundown.specs.Cleans.{writer_seat};

use crate::cleaning::Cleaning;
use crate::dirty::dirty_pages;
use crate::moves::make_move;
use crate::seats::writer;
use disk_trait::Block;
use std::alloc::Global;
use vm_state::{Carrier, State};
use vm_types::{NoMemory, Page, Proc};

/// Makes the rundown's moves, from the first one on until it is over.
///
/// # Errors
/// `NoMemory` if out of memory; then the moves so far were made.
fn make_moves<B: Block>(state: &mut State<B>, carrier: &mut Carrier<B>) -> Result<(), NoMemory>
    requires between { IsBetween state.old.config state.old.past }
    requires answered { IsAnswered state.old.config state.old.past }
    requires carrier { carrier.old ≡ empty (writer_seat state.old) }
    ensures same { IsSameBut state.old state.new }
    ensures between { IsBetween state.new.config state.new.past }
    ensures answered { IsAnswered state.new.config state.new.past }
    ensures right { B.tells.content ≡ true → IsRight state.old.config state.old.past → IsRight state.new.config state.new.past }
    ensures rundown { OnOk result ((rest : List Entry) × (state.new.past ≡ rest ++ state.old.past)
        × IsRundown state.old.config state.old.past rest) }
{
    let mut at = Cleaning::Evicting {
        process: Proc(0),
        slot: 0,
        failed: false,
    };
    'moves: loop {
        let step = make_move(state, at, carrier)?;
        match step {
            Some(next) => {
                state.run_law();
                at = next;
            }
            None => return Ok(()),
        }
    }
}

/// Runs the pager down once each request is answered, by the modified page writer's seat: each shared
/// page is evicted from each working set, as far as the modified list has room, and the modified list is
/// written in two rounds. Gives the shared pages that are held with modify set afterwards, by section
/// and page.
///
/// # Errors
/// `NoMemory` if out of memory; then a part of the rundown was made.
pub fn rundown<B: Block>(alloc: Global, state: &mut State<B>) -> Result<Vec<Page>, NoMemory>
    requires between { IsBetween state.old.config state.old.past }
    requires answered { IsAnswered state.old.config state.old.past }
    ensures same { IsSameBut state.old state.new }
    ensures between { IsBetween state.new.config state.new.past }
    ensures answered { IsAnswered state.new.config state.new.past }
    ensures rundown { OnOk result ((rest : List Entry) × (state.new.past ≡ rest ++ state.old.past)
        × IsRundown state.old.config state.old.past rest) }
    ensures dirty { IfOk result (λ v. v.items ≡ dirty_pages state.new.config (pager state.new)) }
    ensures right { B.tells.content ≡ true → IsRight state.old.config state.old.past → IsRight state.new.config state.new.past }
{
    let seat = writer(state);
    let mut carrier = Carrier::new(alloc, seat)?;
    make_moves(state, &mut carrier)?;
    dirty_pages(alloc, state)
}
