//! The slots of working sets: what they fill, and the frames that they share.

ghost use Rattle.std.specs.Prelude.{◌≡◌, ◌+◌, ◌<◌, length, take};
ghost use Rattle.vm_types.specs.Ring.{filled};
ghost use Rattle.vm_state.specs.History.{pager};
ghost use Rattle.pfn_report.specs.Counts.{AreFrameCounts, passed, pins_below, pins_passed, shares_below};

use disk_trait::Block;
use vm_state::State;
use vm_types::Proc;

/// Adds the page in a slot of a process of the configuration to the shares of its frame, and to the pins of
/// it if the page is pinned; 1 if the slot is filled, else 0. The slots before it were passed.
fn count_slot<B: Block>(
    state: &State<B>,
    p: Proc,
    n: u32,
    shares: &mut [u32],
    pins: &mut [u32],
) -> u32
    requires process { p.0 < length state.now.config.procs }
    requires slot { n < length ((pager state.now).ring p.0).slots }
    requires before { AreFrameCounts state.now.config.frames (passed (pager state.now) p.0 n) shares.old }
    requires pins_before { AreFrameCounts state.now.config.frames (pins_passed (pager state.now) p.0 n) pins.old }
    ensures filled { filled (take n ((pager state.now).ring p.0).slots) + result ≡ filled (take (n + 1) ((pager state.now).ring p.0).slots) }
    ensures after { AreFrameCounts state.now.config.frames (passed (pager state.now) p.0 (n + 1)) shares.new }
    ensures pins_after { AreFrameCounts state.now.config.frames (pins_passed (pager state.now) p.0 (n + 1)) pins.new }
{
    state.run_law();
    match state.slot(p, n) {
        Some(slot) => {
            shares[slot.frame.0 as usize] += 1;
            pins[slot.frame.0 as usize] += u32::from(slot.pinned);
            1
        }
        None => 0,
    }
}

/// Counts the pages in the working set of a process of the configuration, slot by slot, and adds each to
/// the shares of its frame, and to the pins of it if it is pinned. Those of the processes before it were
/// counted.
pub fn count_slots<B: Block>(state: &State<B>, p: Proc, shares: &mut [u32], pins: &mut [u32]) -> u32
    requires there { p.0 < length state.now.config.procs }
    requires before { AreFrameCounts state.now.config.frames (shares_below (pager state.now).valid p.0) shares.old }
    requires pins_before { AreFrameCounts state.now.config.frames (pins_below (pager state.now) p.0) pins.old }
    ensures filled { result ≡ filled ((pager state.now).ring p.0).slots }
    ensures after { AreFrameCounts state.now.config.frames (shares_below (pager state.now).valid (p.0 + 1)) shares.new }
    ensures pins_after { AreFrameCounts state.now.config.frames (pins_below (pager state.now) (p.0 + 1)) pins.new }
{
    state.run_law();
    let mut count = 0;
    for n in 0..state.config().procs.items()[p.0 as usize].extent {
        count += count_slot(state, p, n, shares, pins);
    }
    count
}
