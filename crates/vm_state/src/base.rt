use vm_types::{Config, PoolName};

/// What a state stands on. No call of it changes that but `add_request`, which adds to the body.
#[derive(Drop)]
pub struct StateBase {
    /// Its configuration.
    pub config: Config,
    /// The name of the pool that its buffers are of.
    pub pool: PoolName,
    /// Whether its entries are kept.
    pub keeps: bool,
}
