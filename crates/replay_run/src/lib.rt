//! A run by threads: a worker for each process, for the modified page writer and for the swapper, until
//! every request is answered; then the report, the rundown, and the blocks given back. Each worker is
//! started in a thread of its own, or works in the caller's where none can be made, and all are waited
//! for.
#![tactic(auto)]

mod attending;
mod ending;
mod jobs;
mod last;
mod nap;
mod playing;
mod starting;
mod threads;
mod working;
mod works;

pub use jobs::Job;
pub use last::take_last;
pub use playing::play;
pub use threads::run_threads;
