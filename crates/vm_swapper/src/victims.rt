ghost use Rattle.std.specs.Prelude.{◌≡◌, ◌<◌, ◌&&◌, IfSome, Some, find, length, not};
ghost use Rattle.std.specs.List.{range_with_len};
ghost use Rattle.std.specs.Option.{option_map};
ghost use Rattle.pager_policy.specs.Swap.{earlier, earliest, is_but, last_spoken, may_leave, processes_where, victim_gives};
ghost use Rattle.vm_state.specs.History.{pager};
ghost use Rattle.vm_swapper.specs.Victims.{leaves_coming, leaves_resident, process_number};

use disk_trait::Block;
use vm_state::State;
use vm_types::{Proc, ProcStatus, Seat};

/// The process that leaves memory to make room, but not this one: of the resident processes without an
/// open transfer the one that has spoken least recently, the lowest of several that haven't, or else
/// the coming one. None if no process may leave. Looks at each frame for each process. Doesn't
/// allocate.
pub fn victim<B: Block>(state: &State<B>, but: Option<Proc>) -> Option<Proc>
    ensures { option_map process_number result ≡ victim_gives state.now.config state.now.past (pager state.now) (option_map process_number but) }
{
    match earliest(state, but) {
        Some(q) => Some(q),
        None => coming(state, but),
    }
}

/// How many processes there are: at most 16.
fn processes<B: Block>(state: &State<B>) -> u32
    ensures { result ≡ length state.now.config.procs }
{
    state.run_law();
    state.config().procs.items().len() as u32
}

/// Whether it is this process.
fn is_but(but: Option<Proc>, q: Proc) -> bool
    ensures { result ≡ is_but (option_map process_number but) q.0 }
{
    match but {
        Some(p) => p.0 == q.0,
        None => false,
    }
}

/// Whether a process of the configuration may turn to leaving: it is resident or coming, its seat has
/// no open transfer, and none of its pages is being read back.
fn may_leave<B: Block>(state: &State<B>, q: Proc) -> bool
    requires { q.0 < length state.now.config.procs }
    ensures { result ≡ may_leave state.now.past (pager state.now) q.0 }
{
    match state.status(q) {
        ProcStatus::Resident | ProcStatus::Coming => !state.busy(Seat(q.0)) && !state.has_come(q),
        ProcStatus::Leaving | ProcStatus::Gone => false,
    }
}

/// Whether it is another process, which is resident and may leave.
fn leaves_resident<B: Block>(state: &State<B>, but: Option<Proc>, q: Proc) -> bool
    requires { q.0 < length state.now.config.procs }
    ensures { result ≡ leaves_resident state.now.past (pager state.now) (option_map process_number but) q.0 }
{
    !is_but(but, q) && (may_leave(state, q) && matches!(state.status(q), ProcStatus::Resident))
}

/// Whether it is another process, which is coming and may leave.
fn leaves_coming<B: Block>(state: &State<B>, but: Option<Proc>, q: Proc) -> bool
    requires { q.0 < length state.now.config.procs }
    ensures { result ≡ leaves_coming state.now.past (pager state.now) (option_map process_number but) q.0 }
{
    !is_but(but, q) && (may_leave(state, q) && matches!(state.status(q), ProcStatus::Coming))
}

/// The number of the last spoken entry of a process of the configuration, or 0.
fn last_spoken<B: Block>(state: &State<B>, q: Proc) -> u64
    requires { q.0 < length state.now.config.procs }
    ensures { result ≡ last_spoken q.0 state.now.past }
{
    state.spoken(q).unwrap_or(0)
}

/// The one that has spoken earlier, of a process and a later one, if there is one: the first if they
/// are equal.
fn earlier<B: Block>(state: &State<B>, q: Proc, other: Option<Proc>) -> Proc
    requires there { q.0 < length state.now.config.procs }
    requires other { IfSome other (λ r. r.0 < length state.now.config.procs) }
    ensures is { Some result.0 ≡ earlier (λ r. last_spoken r state.now.past) q.0 (option_map process_number other) }
    ensures there { result.0 < length state.now.config.procs }
{
    match other {
        Some(r) => {
            if last_spoken(state, q) <= last_spoken(state, r) {
                q
            } else {
                r
            }
        }
        None => q,
    }
}

/// Of the other resident processes that may leave, the first of those that have spoken least recently.
fn earliest<B: Block>(state: &State<B>, but: Option<Proc>) -> Option<Proc>
    ensures { option_map process_number result
        ≡ earliest (λ r. last_spoken r state.now.past)
        (processes_where state.now.config (leaves_resident state.now.past (pager state.now) (option_map process_number but))) }
{
    let mut first = None;
    for n in (0..processes(state)).rev() {
        let q = Proc(n);
        if leaves_resident(state, but, q) {
            first = Some(earlier(state, q, first));
        }
    }
    first
}

/// The first of the other coming processes that may leave.
fn coming<B: Block>(state: &State<B>, but: Option<Proc>) -> Option<Proc>
    ensures { option_map process_number result
        ≡ find (leaves_coming state.now.past (pager state.now) (option_map process_number but))
        (range_with_len 0 (length state.now.config.procs)) }
{
    for n in 0..processes(state) {
        let q = Proc(n);
        if leaves_coming(state, but, q) {
            return Some(q);
        }
    }
    None
}
