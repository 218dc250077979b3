use vm_types::{Addr, BlockId, FrameState, Page, ProcStatus, Why};

/// What would have been right.
#[derive(Clone, Copy, Debug, PartialEq, Eq)]
pub(crate) enum Right {
    /// No one value.
    Nothing,
    /// A number.
    Number(u64),
    /// A number, out of another.
    Of(u64, u64),
    /// What is at least the first number and at most the second.
    Range(u64, u64),
    /// A frame, or none.
    Frame(Option<u32>),
    /// A slot, or none.
    Slot(Option<u32>),
    /// A page, or none.
    Page(Option<Page>),
    /// A block, or none.
    Block(Option<BlockId>),
    /// A frame's state.
    State(FrameState),
    /// A process's status.
    Status(ProcStatus),
    /// Why a reference is refused, or that it isn't.
    Refusal(Option<Why>),
    /// An address.
    Address(Addr),
}
