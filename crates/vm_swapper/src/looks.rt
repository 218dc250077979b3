ghost use Rattle.std.specs.Prelude.{◌≡◌, ◌<◌, ◌≤◌, IfSome, length};
ghost use Rattle.vm_types.specs.declared.limits.TheConstants.{MOST_EXTENT};
ghost use Rattle.vm_state.specs.History.{pager};
ghost use Rattle.vm_swapper.specs.Looks.{first, has};

use crate::slots::{address_at, frame_at, has_saved, has_shared_unpinned, is_on_free_at};
use disk_trait::Block;
use vm_state::State;
use vm_types::Proc;

/// What is looked for in the slots of a process.
#[derive(Clone, Copy, Debug, PartialEq, Eq)]
pub enum Look {
    /// A shared page that isn't pinned.
    Shared,
    /// A private page that lies in the slot's swap block, not pinned, unmodified and without an open
    /// transfer.
    Saved,
    /// A private page, not pinned and without an open transfer.
    Unsaved,
    /// A page that lies in the slot's swap block, and whose frame is on the free list.
    OnFree,
    /// A page that lies in the slot's swap block, and is in no frame.
    Out,
}

/// How many slots a process of the configuration has. Doesn't allocate.
pub fn slot_count<B: Block>(state: &State<B>, p: Proc) -> u32
    requires { p.0 < length state.now.config.procs }
    ensures count { result ≡ length ((pager state.now).ring p.0).slots }
    ensures few { result ≤ MOST_EXTENT }
{
    state.run_law();
    let spec = &state.config().procs.items()[p.0 as usize];
    spec.extent
}

/// Whether a slot (any number) of a process of the configuration has what is looked for.
fn has<B: Block>(state: &State<B>, p: Proc, n: u32, look: Look) -> bool
    requires { p.0 < length state.now.config.procs }
    ensures { result ≡ has state.now.config state.now.past (pager state.now) p.0 look n }
{
    match look {
        Look::Shared => has_shared_unpinned(state, p, n),
        Look::Saved => has_saved(state, p, n),
        Look::Unsaved => frame_at(state, p, n).is_some(),
        Look::OnFree => is_on_free_at(state, p, n),
        Look::Out => address_at(state, p, n).is_some(),
    }
}

/// The first slot of a process of the configuration that has what is looked for. Doesn't allocate.
pub fn first<B: Block>(state: &State<B>, p: Proc, look: Look) -> Option<u32>
    requires { p.0 < length state.now.config.procs }
    ensures first { result ≡ first state.now.config state.now.past (pager state.now) p.0 look }
    ensures few { IfSome result (λ n. n < MOST_EXTENT) }
{
    for n in 0..slot_count(state, p) {
        if has(state, p, n, look) {
            return Some(n);
        }
    }
    None
}
