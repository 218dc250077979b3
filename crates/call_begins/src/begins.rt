ghost use Rattle.std.specs.Prelude.{◌≡◌, ◌+◌, ◌<◌, ◌≤◌, ◌++◌, ◌∷◌, [], length, map};
ghost use Rattle.pager_policy.specs.Given.{reuse_first};
ghost use Rattle.pager_model.specs.Lookups.{IsHead};
ghost use Rattle.vm_journal.specs.declared.entry.What.{What};
ghost use Rattle.call_laws.specs.AreLegal.{AreLegal};
ghost use Rattle.vm_state.specs.History.{MayAdd, added, entry_by, owed, pager};
ghost use Rattle.vm_state.specs.LiftsLand.{added_each};
ghost use Rattle.call_begins.specs.Lifted.{HasBegunLifts, place_of, places_in};
ghost use Rattle.call_begins.specs.OneRead.{one_read};

use disk_trait::Block;
use page_lists::ListName;
use vm_journal::Role;
use vm_state::{Carrier, State};
use vm_types::{BlockId, Pfn, Seat};

/// The free list's head gives up the page that it holds, if it holds one. Doesn't allocate.
#[inline(always)]
pub fn reuse_first<B: Block>(state: &mut State<B>, seat: Seat, f: Pfn)
    requires head { IsHead (pager state.old).free f.0 }
    requires may { AreLegal state.old.config state.old.past seat.0 (reuse_first ((pager state.old).page f.0) f.0 []) }
    requires paid { owed state.old.past + 2 ≤ state.old.spare }
    ensures { state.new ≡ added_each seat (reuse_first ((pager state.old).page f.0) f.0 []) state.old }
{
    state.run_law();
    let row = state.frame(f);
    match row.page {
        Some(page) => state.reuse(seat, f, page),
        None => {}
    }
}

/// A read of a block begins into the free list's head, which gives up the page that it holds; nothing
/// happens if the free list is empty. The carrier takes the lift. Doesn't allocate.
#[inline(always)]
pub fn read_one<B: Block>(
    state: &mut State<B>,
    seat: Seat,
    block: BlockId,
    role: Role,
    carrier: &mut Carrier<B>,
)
    requires may { AreLegal state.old.config state.old.past seat.0 (one_read state.old block role) }
    requires paid { owed state.old.past + 4 ≤ state.old.spare }
    requires few { length carrier.old.lifts < 16 }
    requires begun { HasBegunLifts B.seen B.tells state.old seat carrier.old }
    ensures made { state.new ≡ added_each seat (one_read state.old block role) state.old }
    ensures begun { HasBegunLifts B.seen B.tells state.new seat carrier.new }
    ensures each { map place_of carrier.new.lifts ≡ map place_of carrier.old.lifts ++ places_in (one_read state.old block role) }
    ensures few { length carrier.new.lifts ≤ length carrier.old.lifts + 1 }
    ensures paid { owed state.new.past + state.old.spare ≤ owed state.old.past + state.new.spare + 4 }
{
    state.run_law();
    match state.head(ListName::Free) {
        Some(f) => {
            reuse_first(state, seat, f);
            state.begin_in(seat, f, block, role, carrier);
        }
        None => {}
    }
}

/// A write of the page in a frame begins. The carrier takes the lift. Doesn't allocate.
#[inline(always)]
pub fn write_one<B: Block>(
    state: &mut State<B>,
    seat: Seat,
    f: Pfn,
    block: BlockId,
    carrier: &mut Carrier<B>,
)
    requires may { MayAdd state.old (entry_by seat (What.Out f block)) }
    requires few { length carrier.old.lifts < 16 }
    requires begun { HasBegunLifts B.seen B.tells state.old seat carrier.old }
    ensures made { state.new ≡ added state.old (entry_by seat (What.Out f block)) }
    ensures begun { HasBegunLifts B.seen B.tells state.new seat carrier.new }
    ensures each { map place_of carrier.new.lifts ≡ map place_of carrier.old.lifts ++ (f.0, block) ∷ [] }
{
    state.run_law();
    state.begin_out(seat, f, block, carrier);
}
