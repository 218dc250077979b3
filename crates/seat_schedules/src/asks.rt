ghost use Rattle.std.specs.Prelude.{◌≡◌, ◌+◌, ◌<◌, length};
ghost use Rattle.vm_types.specs.WellFormed.{IsServiceOf, IsWellFormedReference, IsWellFormedService};
ghost use Rattle.seat_laws.specs.FreeSeat.{IsFreeSeat};
ghost use Rattle.seat_schedules.specs.AtWork.{HasWorked, idle};

use crate::went::Went;
use crate::worker::Worker;
use disk_trait::Block;
use fault_core::{Next, advance};
use vm_services::{ServeNext, serve};
use vm_state::State;
use vm_types::{Proc, Ref, Request, Seat, Service};

/// The next step for a reference.
fn refer<B: Block>(state: &mut State<B>, worker: &mut Worker<B>, seat: Seat, r: Ref) -> Went
    requires process { seat.0 < length state.old.config.procs }
    requires formed { IsWellFormedReference r }
    requires free { IsFreeSeat state.old seat }
    requires worker { worker.old ≡ idle seat }
    ensures { HasWorked B.seen B.tells state.old state.new seat worker.new }
{
    match advance(state, seat, Proc(seat.0), r, &mut worker.carrier) {
        Next::Answered(_) => Went::Made,
        Next::Carry => {
            worker.reference = Some(r);
            Went::Made
        }
        Next::More => Went::Made,
        Next::Again(_) => Went::Waits,
        Next::Room => unreachable!(),
    }
}

/// The next step for a service.
fn serve_next<B: Block>(state: &mut State<B>, seat: Seat, s: Service) -> Went
    requires process { seat.0 < length state.old.config.procs }
    requires formed { IsWellFormedService s }
    requires known { IsServiceOf state.old.config.version s }
    requires free { IsFreeSeat state.old seat }
    ensures { HasWorked B.seen B.tells state.old state.new seat (idle seat) }
{
    match serve(state, seat, Proc(seat.0), s) {
        ServeNext::Answered(_) => Went::Made,
        ServeNext::More => Went::Made,
        ServeNext::Again(_) => Went::Waits,
        ServeNext::Room => unreachable!(),
    }
}

/// The next step for the request at this place of the body, if it is of the seat's own process.
pub fn ask<B: Block>(state: &mut State<B>, worker: &mut Worker<B>, seat: Seat, place: usize) -> Went
    requires free { IsFreeSeat state.old seat }
    requires worker { worker.old ≡ idle seat }
    ensures { HasWorked B.seen B.tells state.old state.new seat worker.new }
{
    state.run_law();
    match state.config().body.get(place) {
        Some(task) => {
            if task.proc.0 != seat.0 {
                return Went::Barred;
            }
            match task.request {
                Request::Reference(r) => refer(state, worker, seat, r),
                Request::Service(s) => serve_next(state, seat, s),
            }
        }
        None => Went::Barred,
    }
}
