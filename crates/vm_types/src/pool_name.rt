/// The name by which contracts call a pool of page buffers: a number that no other pool has, and how
/// many buffers the pool was made with. No call makes a value of it: it is a type of code so that what
/// a value stands on, as the base of a state, can have a field of it.
#[derive(Clone, Copy, Debug, PartialEq, Eq)]
pub struct PoolName {
    /// The number, which no other pool has.
    pub number: u64,
    /// How many buffers the pool was made with.
    pub size: u32,
}
