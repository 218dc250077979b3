//! A request is put behind the body, and answered.

ghost use Rattle.std.specs.Prelude.{◌≡◌, true, false, IfErr, IfOk, OnErr, OnOk};
ghost use Rattle.pager_model.specs.Spoken.{IsRight};
ghost use Rattle.pager_laws.specs.Bodies.{MayBeAdded, has_rundown};
ghost use Rattle.serial_moves.specs.Carriers.{AreIdle};
ghost use Rattle.serial_moves.specs.Controls.{control_in};
ghost use Rattle.open_pager.specs.Asked.{IsAskedNow, IsAskedBy, IsLeftBy, IsRefused, IsSameButSpare, IsSameWith};
ghost use Rattle.open_pager.specs.Open.{IsOpen};

use crate::faults::AskFault;
use crate::pager::OpenPager;
use crate::requests::request_fault;
use crate::settling::settle;
use disk_trait::Block;
use serial_moves::Control;
use vm_state::{Carrier, State};
use vm_types::{NoMemory, Task};

/// Where fewer entries are spare than this, room for more is made before a request is asked, so that memory
/// seldom runs out amid its moves.
const LEAST_ROOM: u32 = 1_024;

/// For so many.
const ROOM: u32 = 4_096;

/// Makes room for the entries of a request.
fn make_room<B: Block>(state: &mut State<B>) -> Result<(), NoMemory>
    ensures { IsSameButSpare state.old state.new }
{
    if state.spare() < LEAST_ROOM {
        state.reserve(ROOM)?;
    }
    Ok(())
}

/// Makes room, and puts the request behind the body.
fn add<B: Block>(state: &mut State<B>, task: Task) -> Result<(), NoMemory>
    requires may { MayBeAdded state.old.config task }
    requires before { has_rundown state.old.past ≡ false }
    ensures ok { OnOk result (IsSameWith task state.old state.new × (state.new.past ≡ state.old.past)) }
    ensures err { OnErr result (IsSameButSpare state.old state.new) }
{
    make_room(state)?;
    state.add_request(task)
}

/// Puts a request behind the body, and makes the serial policy's moves until it rests. Says where it rests.
///
/// # Errors
/// `NoMemory` if memory ran out before a move, and then no request was added; else `Stopped`.
#[tactic(auto, using(crate::proofs::LongerBody::asked_by))]
pub fn ask_request<B: Block>(
    state: &mut State<B>,
    at: Control,
    carriers: &mut [Carrier<B>],
    task: Task,
) -> Result<Control, AskFault>
    requires open_there { IsOpen state.old (control_in at) }
    requires carriers { AreIdle state.old carriers.old }
    requires may { MayBeAdded state.old.config task }
    ensures asked { IfOk result (λ next. IsAskedBy state.old (control_in at) task state.new (control_in next)) }
    ensures carriers { OnOk result (carriers.new ≡ carriers.old) }
    ensures fault { IfErr result (IsLeftBy state.old carriers.old state.new carriers.new) }
{
    match add(state, task) {
        Ok(()) => match settle(state, at, carriers) {
            Ok(next) => Ok(next),
            Err(_) => Err(AskFault::Stopped),
        },
        Err(_) => Err(AskFault::NoMemory),
    }
}

impl<B: Block> OpenPager<B> {
    /// Asks a request, and makes all that the serial policy makes of it, until it rests. What was made so far is
    /// then the serial run of the requests so far.
    ///
    /// # Errors
    /// `NoProcess`, `NotFormed`, `NotOfVersion` and `Full` if the request can't be added; `NoMemory` if memory
    /// ran out before anything was made. Nothing has changed then. `Stopped` if memory ran out amid the moves,
    /// now or earlier: the pager answers no more.
    pub fn ask(&mut self, task: Task) -> Result<(), AskFault>
        ensures asked { OnOk result (IsAskedNow self.old task self.new) }
        ensures right { OnOk result (B.tells.content ≡ true → IsRight self.new.history.config self.new.history.past) }
        ensures fault { IfErr result (IsRefused self.old task self.new) }
    {
        if self.stopped {
            return Err(AskFault::Stopped);
        }
        if let Some(fault) = request_fault(self.state.config(), task) {
            return Err(fault);
        }
        match ask_request(&mut self.state, self.control, &mut self.carriers, task) {
            Ok(next) => {
                self.state.run_law();
                self.control = next;
                Ok(())
            }
            Err(fault) => {
                self.stopped = matches!(fault, AskFault::Stopped);
                Err(fault)
            }
        }
    }
}
