//! The actors: requests of a process, the modified page writer and the swapper, each at the lock round the
//! state by turns, and the workers that do them one after another. They wait for their turns, and carry
//! transfers with no turn held.
#![tactic(auto)]

mod asks;
mod doing;
mod ended;
mod ends;
mod entering;
mod gate;
mod idle_turns;
mod idle_work;
mod looking;
mod process_work;
mod stepping;
mod taken;
mod turns;

pub use asks::ask;
pub use doing::Doing;
pub use ended::Ended;
pub use gate::{Gate, Open};
pub use idle_turns::work_once;
pub use idle_work::idle_worker;
pub use process_work::process_worker;
