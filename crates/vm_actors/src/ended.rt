use disk_trait::Block;
use history_lock::Pass;
use vm_state::State;

/// How a worker ended.
#[derive(Drop)]
pub struct Ended<B: Block> {
    /// Its pass, which has no turn.
    pub pass: Pass<State<B>>,
    /// Whether memory ran out, or the state was halted.
    pub short: bool,
}
