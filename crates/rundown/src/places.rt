ghost use Rattle.std.specs.Prelude.{◌≡◌, ◌&&◌, ◌-◌, ◌<◌, IfSome, length, nat_le};
ghost use Rattle.std.specs.List.{range_with_len};
ghost use Rattle.std.specs.Option.{option_map};
ghost use Rattle.vm_types.specs.declared.limits.TheConstants.{MOST_EXTENT};
ghost use Rattle.pager_policy.specs.Rundown.{is_shared_at, shared_from, shared_of_processes, shared_place};
ghost use Rattle.vm_state.specs.History.{pager};
ghost use Rattle.rundown.specs.Places.{IsThere, place_as};

use crate::seats::processes;
use disk_trait::Block;
use vm_state::State;
use vm_swapper::{has_shared, slot_count};
use vm_types::Proc;

/// A slot of a process.
#[derive(Clone, Copy, Debug, PartialEq, Eq)]
pub struct Place {
    pub process: Proc,
    pub slot: u32,
}

/// Whether the slot m (any number) of a process of the configuration has a shared page, and isn't before
/// the slot n.
fn is_shared_from<B: Block>(state: &State<B>, p: Proc, n: u32, m: u32) -> bool
    requires { p.0 < length state.now.config.procs }
    ensures { result ≡ (nat_le n m && is_shared_at (pager state.now) p.0 m) }
{
    n <= m && has_shared(state, p, m)
}

/// The first slot of a process of the configuration from this one (any number) on that has a shared
/// page; none if none has.
fn shared_from<B: Block>(state: &State<B>, p: Proc, n: u32) -> Option<u32>
    requires { p.0 < length state.now.config.procs }
    ensures first { result ≡ shared_from (pager state.now) p.0 n }
    ensures few { IfSome result (λ m. m < MOST_EXTENT) }
{
    for m in 0..slot_count(state, p) {
        if is_shared_from(state, p, n, m) {
            return Some(m);
        }
    }
    None
}

/// The first slot that has a shared page, of the processes from this number (any) on; none if none has.
fn shared_of_processes<B: Block>(state: &State<B>, first: u32) -> Option<Place>
    ensures place { option_map place_as result ≡ shared_of_processes (pager state.now)
        (range_with_len first (length state.now.config.procs - first)) }
    ensures there { IfSome result (IsThere state.now) }
{
    for q in first..processes(state) {
        match shared_from(state, Proc(q), 0) {
            Some(slot) => {
                return Some(Place {
                    process: Proc(q),
                    slot,
                });
            }
            None => {}
        }
    }
    None
}

/// The first slot that has a shared page, from this slot of this process on (any numbers), and then of
/// the later processes; none if none has. Doesn't allocate.
pub fn shared_place<B: Block>(state: &State<B>, p: Proc, n: u32) -> Option<Place>
    ensures place { option_map place_as result ≡ shared_place state.now.config (pager state.now) p.0 n }
    ensures there { IfSome result (IsThere state.now) }
{
    state.run_law();
    let count = processes(state);
    if p.0 >= count {
        return None;
    }
    match shared_from(state, p, n) {
        Some(slot) => Some(Place { process: p, slot }),
        None => shared_of_processes(state, p.0 + 1),
    }
}
