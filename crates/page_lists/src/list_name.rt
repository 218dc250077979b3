/// Which of the two page lists.
#[derive(Clone, Copy, Debug, PartialEq, Eq)]
pub enum ListName {
    /// Frames that can be reused at once, the first to be reused at the head.
    Free,
    /// Frames whose pages are to be written first.
    Modified,
}
