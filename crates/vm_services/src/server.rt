ghost use Rattle.std.specs.Prelude.{◌≡◌, ◌+◌, ◌<◌, ◌≤◌, ◌↔◌};
ghost use Rattle.vm_types.specs.WellFormed.{IsServiceOf, IsWellFormedService};
ghost use Rattle.vm_types.specs.declared.reply.Answer.{Answer};
ghost use Rattle.vm_journal.specs.declared.entry.What.{What};
ghost use Rattle.pager_policy.specs.Serve.{serve_gives};
ghost use Rattle.policy_tables.specs.Rows.{IsByCases};
ghost use Rattle.policy_tables.specs.ServeCases.{serve_cases};
ghost use Rattle.vm_state.specs.History.{MayAdd, added, entry_by, owed, pager};
ghost use Rattle.vm_services.specs.Cases.{at_service};
ghost use Rattle.call_begins.specs.ReadySeat.{IsIdleSeat};
ghost use Rattle.vm_services.specs.Serves.{MayServe, Serves};
ghost use Rattle.vm_services.specs.declared.next.ServeNext.{ServeNext};

use crate::deletions::delete;
use crate::next::{ServeNext, ServeWhy};
use crate::purges::purge;
use disk_trait::Block;
use vm_state::State;
use vm_types::{Answer, Proc, Seat, Service};

/// Makes the next entries for a service of a process by its own seat: by the first case that applies.
/// There may be room for too few entries; else a process that isn't resident waits, a service is
/// refused, a page of a range that is deleted or purged is evicted or waited for, or the service is
/// answered. The cases are the rows of a table, `serve_cases`. Doesn't allocate.
pub fn serve<B: Block>(state: &mut State<B>, seat: Seat, p: Proc, s: Service) -> ServeNext
    requires own { seat.0 ≡ p.0 }
    requires idle { IsIdleSeat state.old seat }
    requires formed { IsWellFormedService s }
    requires known { IsServiceOf state.old.config.version s }
    ensures room { (result ≡ ServeNext.Room) ↔ (state.old.spare < owed state.old.past + 64) }
    ensures same { result ≡ ServeNext.Room → state.new ≡ state.old }
    ensures gives { owed state.old.past + 64 ≤ state.old.spare
        → Serves state.old state.new seat (serve_gives state.old.config state.old.past (pager state.old) p.0 s) result }
    ensures by_table { owed state.old.past + 64 ≤ state.old.spare
        → IsByCases (serve_cases state.old.config state.old.past (pager state.old) p.0 s) (λ g. Serves state.old state.new seat g result) }
{
    serve_first(state, seat, p, s)
}

/// The first case that applies.
#[inline(always)]
fn serve_first<B: Block>(state: &mut State<B>, seat: Seat, p: Proc, s: Service) -> ServeNext
    requires own { seat.0 ≡ p.0 }
    requires idle { IsIdleSeat state.old seat }
    requires formed { IsWellFormedService s }
    requires known { IsServiceOf state.old.config.version s }
    ensures room { (result ≡ ServeNext.Room) ↔ (state.old.spare < owed state.old.past + 64) }
    ensures same { result ≡ ServeNext.Room → state.new ≡ state.old }
    ensures gives { owed state.old.past + 64 ≤ state.old.spare
        → Serves state.old state.new seat (serve_gives state.old.config state.old.past (pager state.old) p.0 s) result }
{
    state.run_law();
    if state.spare() - state.owed() < 64 {
        return ServeNext::Room;
    }
    if state.status(p).is_resident() {
        resident(state, seat, s)
    } else {
        ServeNext::Again(ServeWhy::NotResident)
    }
}

/// The process is resident.
fn resident<B: Block>(state: &mut State<B>, seat: Seat, s: Service) -> ServeNext
    requires formed { IsWellFormedService s }
    requires may { MayServe state.old seat (at_service state.old seat s) }
    ensures { Serves state.old state.new seat (at_service state.old seat s) result }
{
    match s {
        Service::Delete { at, pages } => delete(state, seat, at, pages),
        Service::Purge { at, pages } => purge(state, seat, at, pages),
        Service::Create { .. }
        | Service::Protect { .. }
        | Service::Lock { .. }
        | Service::Unlock { .. }
        | Service::Pin { .. }
        | Service::Unpin { .. }
        | Service::Adjust { .. } => ServeNext::Answered(state.served(seat, s, false)),
    }
}

/// Answers a service with a failure of the disk: a transfer that it waited for failed. Doesn't
/// allocate.
pub fn refuse_service<B: Block>(state: &mut State<B>, seat: Seat, p: Proc, s: Service)
    requires own { seat.0 ≡ p.0 }
    requires may { MayAdd state.old (entry_by seat (What.Served s Answer.DiskFault)) }
    ensures { state.new ≡ added state.old (entry_by seat (What.Served s Answer.DiskFault)) }
{
    state.answer(seat, s, Answer::DiskFault)
}
