use vm_types::{FrameState, Pfn, Proc};

/// An eviction of the rundown: the process, the number of the page, the frame, and the state to which
/// the frame goes.
#[derive(Clone, Copy, Debug)]
pub(crate) struct Eviction {
    pub(crate) process: Proc,
    pub(crate) vpn: u32,
    pub(crate) frame: Pfn,
    pub(crate) to: FrameState,
}
