//! A lock round a value that keeps a journal. What a turn finds is known to the pass that takes it: the
//! journal begins with what the pass has seen, and has no entry of its numbers that it hasn't seen.
#![tactic(auto)]

mod lock;
mod opening;
mod pass;
mod plays;
mod sharing;
mod stage;
mod steps;
mod turn;
mod turns;
mod view;

pub use lock::HistoryLock;
pub use opening::Opening;
pub use pass::Pass;
pub use sharing::{lock_is_shared, pass_is_moved};
pub use stage::Stage;
pub use turn::Turn;
pub use turns::Turns;
pub use view::View;
