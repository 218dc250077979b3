ghost use Rattle.std.specs.Prelude.{◌≡◌, ◌+◌, ◌<◌, ◌≤◌, length};
ghost use Rattle.vm_types.specs.declared.limits.TheConstants.{MOST_EXTENT};
ghost use Rattle.pager_policy.specs.Given.{reads_made};
ghost use Rattle.call_laws.specs.AreLegal.{AreLegal};
ghost use Rattle.call_begins.specs.Lifted.{HasLifts};
ghost use Rattle.call_begins.specs.MayBegin.{empty};
ghost use Rattle.vm_state.specs.History.{owed, pager};
ghost use Rattle.vm_state.specs.LiftsLand.{added_each};
ghost use Rattle.vm_swapper.specs.Runs.{reads_from, writes_from};

use crate::runs::Run;
use call_begins::{read_one, write_one};
use disk_trait::Block;
use vm_journal::Role;
use vm_state::{Carrier, State};
use vm_types::{Addr, BlockId, Pfn};

/// Begins the writes of these frames to the swap blocks of a run. The carrier takes their lifts.
pub fn write_all<B: Block>(state: &mut State<B>, run: Run, frames: &[u32], carrier: &mut Carrier<B>)
    requires slot { run.slot < MOST_EXTENT }
    requires few { length frames.now ≤ 16 }
    requires may { AreLegal state.old.config state.old.past (run.seat).0 (writes_from (run.p).0 run.slot frames.now) }
    requires room { owed state.old.past + 64 ≤ state.old.spare }
    requires carrier { carrier.old ≡ empty run.seat }
    ensures made { state.new ≡ added_each run.seat (writes_from (run.p).0 run.slot frames.now) state.old }
    ensures lifts { HasLifts B.seen B.tells state.new run.seat
        (writes_from (run.p).0 run.slot frames.now) carrier.new }
{
    let mut slot = run.slot;
    for f in frames {
        write_one(
            state,
            run.seat,
            Pfn(*f),
            BlockId::Swap(run.p, slot),
            carrier,
        );
        slot += 1;
    }
}

/// Begins the reads of the pages at these addresses from the swap blocks of a run, each into the head of
/// the free list. The carrier takes their lifts.
pub fn read_all<B: Block>(
    state: &mut State<B>,
    run: Run,
    addresses: &[u32],
    carrier: &mut Carrier<B>,
)
    requires slot { run.slot < MOST_EXTENT }
    requires few { length addresses.now ≤ 16 }
    requires may { AreLegal state.old.config state.old.past (run.seat).0
        (reads_made (pager state.old).page (pager state.old).free (reads_from (run.p).0 run.slot addresses.now)) }
    requires room { owed state.old.past + 64 ≤ state.old.spare }
    requires carrier { carrier.old ≡ empty run.seat }
    ensures made { state.new
        ≡ added_each run.seat (reads_made (pager state.old).page (pager state.old).free (reads_from (run.p).0 run.slot addresses.now)) state.old }
    ensures lifts { HasLifts B.seen B.tells state.new run.seat
        (reads_made (pager state.old).page (pager state.old).free (reads_from (run.p).0 run.slot addresses.now)) carrier.new }
{
    let mut slot = run.slot;
    for a in addresses {
        state.run_law();
        read_one(
            state,
            run.seat,
            BlockId::Swap(run.p, slot),
            Role::Come(run.p, Addr(*a)),
            carrier,
        );
        slot += 1;
    }
}
