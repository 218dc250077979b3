ghost use Rattle.std.specs.Prelude.{◌≡◌, ◌+◌, ◌<◌, ◌≤◌, ◌&&◌, ◌∷◌, ◌++◌, [], Some, None, length, map, not, if◌then◌else◌};
ghost use Rattle.vm_types.specs.Configuration.{IsBlock};
ghost use Rattle.vm_types.specs.declared.names.BlockId.{BlockId};
ghost use Rattle.pager_policy.specs.Advance.{is_busy_block};
ghost use Rattle.pager_model.specs.Forget.{holder};
ghost use Rattle.pager_policy.specs.Given.{reuse_first};
ghost use Rattle.pager_model.specs.Lookups.{IsHead};
ghost use Rattle.pager_model.specs.Maps.{is_paged};
ghost use Rattle.call_laws.specs.AreLegal.{AreLegal};
ghost use Rattle.vm_state.specs.History.{owed, pager};
ghost use Rattle.vm_state.specs.LiftsLand.{added_each};
ghost use Rattle.call_begins.specs.Lifted.{HasBegunLifts, place_of, places_in};
ghost use Rattle.call_begins.specs.OneRead.{one_read};
ghost use Rattle.fault_core.specs.Cases.{at_frame, at_held, at_out};
ghost use Rattle.fault_core.specs.SoughtPage.{first_block};
ghost use Rattle.fault_core.specs.Gives.{Gives, MaySeek};

use crate::cluster::{block_after, cluster, is_alone};
use crate::faults::is_uncharged;
use crate::next::{AgainWhy, Next};
use crate::sought::Sought;
use crate::waits::page_start;
use arrayvec::ArrayVec;
use call_begins::{read_one, reuse_first};
use disk_trait::Block;
use page_lists::ListName;
use vm_journal::Role;
use vm_state::{Carrier, State};
use vm_types::{BlockId, Page, Pfn, Proc};

/// There is a slot for the page. If it is in a frame, it comes back, and the reference is answered.
#[inline(always)]
pub fn held<B: Block>(state: &mut State<B>, x: Sought, carrier: &mut Carrier<B>) -> Next
    requires { MaySeek state.old x (at_held state.old x) carrier.old }
    ensures { Gives B.seen B.tells state.old state.new x.seat x.r (at_held state.old x) result carrier.old carrier.new }
{
    match x.backing.frame {
        Some(f) => {
            let row = state.frame(f);
            let start = page_start(x.r);
            state.back(x.seat, Proc(x.seat.0), start, f, row.state);
            Next::Answered(state.done(x.seat, x.r))
        }
        None => fetch(state, x, carrier),
    }
}

/// The block from which a page is read that isn't charged yet: that behind a private page; a shared
/// page is made of zeros.
fn first_source(x: Sought) -> Option<BlockId>
    ensures { result ≡ first_block x.page x.behind }
{
    match x.page {
        Page::Private(..) => x.behind,
        Page::Shared(..) => None,
    }
}

/// The block from which a page is read that is out: the first one before it is charged, else the one in
/// which it lies.
fn source<B: Block>(state: &State<B>, x: Sought) -> Option<BlockId>
    ensures { result ≡ (if is_paged state.now.config x.page && not (x.backing).charged then first_block x.page x.behind else (x.backing).lies) }
{
    if is_uncharged(state.config(), x) {
        first_source(x)
    } else {
        x.backing.lies
    }
}

/// Whether a block is in a transfer.
fn is_busy_block<B: Block>(state: &State<B>, block: Option<BlockId>) -> bool
    requires { (b : BlockId) → block ≡ Some b → IsBlock state.now.config b }
    ensures { result ≡ is_busy_block state.now.past block }
{
    if state.owed() == 0 {
        return false;
    }
    match block {
        Some(b) => !state.home(b),
        None => false,
    }
}

/// The page is out: it is read from its block, or made of zeros.
fn fetch<B: Block>(state: &mut State<B>, x: Sought, carrier: &mut Carrier<B>) -> Next
    requires out { holder state.old.config (pager state.old).page x.page ≡ None }
    requires seeks { MaySeek state.old x (at_out state.old x) carrier.old }
    ensures { Gives B.seen B.tells state.old state.new x.seat x.r (at_out state.old x) result carrier.old carrier.new }
{
    let block = source(state, x);
    if is_busy_block(state, block) {
        return Next::Again(AgainWhy::BlockBusy);
    }
    match state.head(ListName::Free) {
        Some(f) => match block {
            Some(b) => read_in(state, x, b, carrier),
            None => zero(state, x, f, carrier),
        },
        None => Next::Again(AgainWhy::NoFrame),
    }
}

/// The page and those that are read with it are read, from their blocks.
fn read_in<B: Block>(state: &mut State<B>, x: Sought, b: BlockId, carrier: &mut Carrier<B>) -> Next
    requires seeks { MaySeek state.old x (at_frame state.old x (Some b)) carrier.old }
    requires exists { IsBlock state.old.config b }
    requires free { 1 ≤ length (pager state.old).free }
    ensures { Gives B.seen B.tells state.old state.new x.seat x.r (at_frame state.old x (Some b)) result carrier.old carrier.new }
{
    let fault = Role::Fault(Proc(x.seat.0), page_start(x.r));
    if is_alone(state, x) {
        read_one(state, x.seat, b, fault, carrier);
        return Next::Carry;
    }
    let mut pages = ArrayVec::new();
    let length = cluster(state, x, b, &mut pages);
    read_one(state, x.seat, b, fault, carrier);
    for places in 1..length {
        match pages.as_slice()[places as usize] {
            Some(page) => {
                state.run_law();
                let block = block_after(b, places);
                read_one(state, x.seat, block, Role::Near(page), carrier);
            }
            None => {}
        }
    }
    Next::Carry
}

/// A demand zero page gets a frame of zeros, and the reference is answered.
fn zero<B: Block>(state: &mut State<B>, x: Sought, f: Pfn, carrier: &mut Carrier<B>) -> Next
    requires head { IsHead (pager state.old).free f.0 }
    requires seeks { MaySeek state.old x (at_frame state.old x None) carrier.old }
    ensures { Gives B.seen B.tells state.old state.new x.seat x.r (at_frame state.old x None) result carrier.old carrier.new }
{
    reuse_first(state, x.seat, f);
    let start = page_start(x.r);
    state.zero(x.seat, start, f);
    Next::Answered(state.done(x.seat, x.r))
}
