/// Why a write cluster is begun.
#[derive(Clone, Copy, Debug, PartialEq, Eq)]
pub enum Reason {
    /// The modified list is long: it is written down to LOLIMIT pages.
    High,
    /// Room is needed on the modified list.
    Need,
}
