ghost use Rattle.std.specs.Prelude.{◌≡◌, ◌<◌, ◌≤◌, IfSome, length};
ghost use Rattle.std.specs.Option.{option_map};
ghost use Rattle.vm_types.specs.declared.names.ProcStatus.TheVariants as status;
ghost use Rattle.pager_policy.specs.Policy.{coming_process};
ghost use Rattle.pager_policy.specs.Swap.{is_but};
ghost use Rattle.vm_state.specs.History.{pager};
ghost use Rattle.vm_swapper.specs.Victims.{process_number};
ghost use Rattle.seat_steps.specs.Leaving.{is_other_leaving, lowest_leaving};

use disk_trait::Block;
use vm_state::State;
use vm_types::Proc;

/// How many processes there are: at most 16.
pub(crate) fn processes<B: Block>(state: &State<B>) -> u32
    ensures count { result ≡ length state.now.config.procs }
    ensures few { result ≤ 16 }
{
    state.run_law();
    state.config().procs.items().len() as u32
}

/// Whether it is this process.
fn is_but(but: Option<Proc>, q: Proc) -> bool
    ensures { result ≡ is_but (option_map process_number but) q.0 }
{
    match but {
        Some(p) => p.0 == q.0,
        None => false,
    }
}

/// Whether a process of the configuration is leaving, and is another one than this.
fn is_other_leaving<B: Block>(state: &State<B>, but: Option<Proc>, q: Proc) -> bool
    requires { q.0 < length state.now.config.procs }
    ensures { result ≡ is_other_leaving (pager state.now) (option_map process_number but) q.0 }
{
    if is_but(but, q) {
        false
    } else {
        state.status(q).is_leaving()
    }
}

/// The lowest process that is leaving, but for this one; none if there is none.
pub(crate) fn lowest_leaving<B: Block>(state: &State<B>, but: Option<Proc>) -> Option<Proc>
    ensures lowest { option_map process_number result ≡ lowest_leaving state.now.config (pager state.now) (option_map process_number but) }
    ensures there { IfSome result (λ q. q.0 < length state.now.config.procs) }
    ensures leaving { IfSome result (λ q. (pager state.now).status q.0 ≡ status.Leaving) }
{
    for n in 0..processes(state) {
        let q = Proc(n);
        if is_other_leaving(state, but, q) {
            return Some(q);
        }
    }
    None
}

/// The process that is coming; none if none is.
pub(crate) fn coming_process<B: Block>(state: &State<B>) -> Option<Proc>
    ensures found { option_map process_number result ≡ coming_process state.now.config (pager state.now) }
    ensures there { IfSome result (λ q. q.0 < length state.now.config.procs) }
    ensures coming { IfSome result (λ q. (pager state.now).status q.0 ≡ status.Coming) }
{
    for n in 0..processes(state) {
        let q = Proc(n);
        if state.status(q).is_coming() {
            return Some(q);
        }
    }
    None
}
