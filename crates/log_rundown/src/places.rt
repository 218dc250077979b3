ghost use Rattle.std.specs.Prelude.{◌≡◌, ◌&&◌, ◌-◌, ◌<◌, ◌≤◌, IfSome, length, nat_le};
ghost use Rattle.std.specs.List.{range_with_len};
ghost use Rattle.std.specs.Option.{option_map};
ghost use Rattle.vm_types.specs.declared.limits.TheConstants.{MOST_EXTENT};
ghost use Rattle.vm_types.specs.Configuration.{IsWellFormed};
ghost use Rattle.pager_policy.specs.Rundown.{is_shared_at, shared_from, shared_of_processes, shared_place};
ghost use Rattle.shadow_pager.specs.Shown.{shown};
ghost use Rattle.log_rundown.specs.Places.{HasSmallSlot, place_as};

use crate::seen::has_shared;
use shadow_pager::ShadowPager;
use vm_types::{Config, Proc};

/// A slot of a process.
#[derive(Clone, Copy, Debug)]
pub(crate) struct Place {
    pub(crate) process: Proc,
    pub(crate) slot: u32,
}

/// Whether slot m has a shared page, and isn't before slot n.
fn is_shared_from(pager: &ShadowPager, p: Proc, n: u32, m: u32) -> bool
    ensures { result ≡ (nat_le n m && is_shared_at (shown pager.now).pager p.0 m) }
{
    n <= m && has_shared(pager, p, m)
}

/// The first slot of a process, from this one on, that has a shared page.
fn shared_from(pager: &ShadowPager, p: Proc, n: u32) -> Option<u32>
    ensures first { result ≡ shared_from (shown pager.now).pager p.0 n }
    ensures few { IfSome result (λ m. m < MOST_EXTENT) }
{
    for m in 0..pager.slots_of(p) {
        if is_shared_from(pager, p, n, m) {
            return Some(m);
        }
    }
    None
}

/// The first slot that has a shared page, of the processes from this number to that of the last one.
fn shared_of_processes(pager: &ShadowPager, first: u32, count: u32) -> Option<Place>
    ensures place { option_map place_as result ≡ shared_of_processes (shown pager.now).pager (range_with_len first (count - first)) }
    ensures small { IfSome result HasSmallSlot }
{
    for q in first..count {
        if let Some(slot) = shared_from(pager, Proc(q), 0) {
            return Some(Place {
                process: Proc(q),
                slot,
            });
        }
    }
    None
}

/// How many processes there are.
fn processes(config: &Config) -> u32
    requires { IsWellFormed config.now }
    ensures { result ≡ length config.now.procs }
{
    config.procs.items().len() as u32
}

/// The first slot that has a shared page, from this slot of this process on, and then of the later
/// processes.
pub(crate) fn shared_place(config: &Config, pager: &ShadowPager, p: Proc, n: u32) -> Option<Place>
    requires { IsWellFormed config.now }
    ensures place { option_map place_as result ≡ shared_place config.now (shown pager.now).pager p.0 n }
    ensures small { IfSome result HasSmallSlot }
{
    let count = processes(config);
    if let Some(slot) = shared_from(pager, p, n) {
        return Some(Place { process: p, slot });
    }
    if p.0 >= count {
        return None;
    }
    shared_of_processes(pager, p.0 + 1, count)
}
