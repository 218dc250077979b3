/// Every block of the page file is charged.
#[derive(Clone, Copy, Debug, PartialEq, Eq)]
pub struct Full;
