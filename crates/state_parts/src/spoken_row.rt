/// The last spoken entry of a process, by its number, and how many it has.
#[derive(Clone, Copy, Debug)]
pub struct SpokenRow {
    pub last: Option<u64>,
    pub count: u64,
}
