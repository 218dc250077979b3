/// Where a list begins and ends in the link cells. While it is empty its head and tail mean nothing.
#[derive(Clone, Copy, Debug)]
pub(crate) struct Ends {
    /// The first frame.
    pub head: u32,
    /// The last frame.
    pub tail: u32,
    /// How many frames there are.
    pub count: u32,
}
