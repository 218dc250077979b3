use vm_types::{Addr, BlockId, FrameState, Page, Pfn, ProcStatus, Seat, Why};

/// A condition of a legal next entry that doesn't hold. Where one value would have been right, it is
/// that value.
#[derive(Clone, Copy, Debug, PartialEq, Eq)]
pub enum Reason {
    // The seat and its turn.
    /// A read has failed, and next comes the reuse of this frame by this seat.
    ReuseComesNext(Seat, Pfn),
    /// The seat has an open transfer, and the entry is none that goes with one.
    SeatHasOpenTransfer,
    /// A transfer of the seat's carrier has landed already; so many have.
    CarrierHasLanded(u64),
    /// The seat's open transfers go the other way.
    CarrierGoesOtherWay,
    /// The block isn't the one after this one, the carrier's last.
    NotNextBlock(BlockId),
    /// The carrier has as many transfers as a cluster may have.
    ClusterIsFull(u32),
    /// A read for a fault is its carrier's first, and the seat has an open transfer.
    FaultIsNotFirst,

    // The process.
    /// There are only so many processes.
    NoSuchProcess(usize),
    /// The process has this status and isn't resident.
    NotResident(ProcStatus),
    /// The process has this status, and another is asked for.
    InOtherStatus(ProcStatus),
    /// The process isn't the seat's own.
    NotOwnProcess,
    /// So many slots are filled, and so many may be.
    CountAtLimit(u32, u32),
    /// So many slots are filled, and so many may be.
    CountBelowLimit(u32, u32),
    /// An adjustment of the limit comes first, after so many references.
    AdjustmentIsPending(u64),
    /// No adjustment of the limit is due, after so many references.
    AdjustmentNotPending(u64),
    /// So many faults are counted since the last adjustment.
    WrongFaults(u64),
    /// The rule gives this limit.
    WrongLimit(u64),
    /// A page of the process is being read back.
    PageIsComing,
    /// So many pages that aren't pinned are left in the working set.
    PagesAreLeft(u32),
    /// Another process is coming.
    OtherIsComing,
    /// A page of the process still lies in a swap block.
    PagesAreSwapped,

    // The frame.
    /// The free list's head is this frame, or none is.
    NotAtFreeHead(Option<u32>),
    /// The modified list's head is this frame, or none is.
    NotAtModifiedHead(Option<u32>),
    /// The frame still holds this page.
    FrameNotEmpty(Page),
    /// The frame holds no page.
    FrameIsEmpty,
    /// The frame holds this page, or none.
    HoldsOtherPage(Option<Page>),
    /// The frame is in this state.
    InOtherState(FrameState),
    /// A page in a frame of that state doesn't come back.
    MayNotComeBack,
    /// A page of a coming process comes back from the free list alone.
    NotFromFree,
    /// The frame goes to this state.
    GoesElsewhere(FrameState),
    /// The modified list has as many frames as it may have.
    ModifiedListAtWaitLimit(u32),

    // The page.
    /// The page isn't mapped.
    NotMapped,
    /// The page isn't made of zeros.
    NotZeros,
    /// The page was touched before, and is charged.
    PageIsCharged,
    /// The page file has only so many blocks, and each is promised to a page.
    NoBlockIsLeft(u32),
    /// The page is valid.
    PageIsValid,
    /// The page isn't valid.
    PageNotValid,
    /// The page is valid in this frame.
    ValidInOtherFrame(Pfn),
    /// A frame still holds the page.
    PageInMemory,
    /// The page lies in this block, or in none.
    LiesElsewhere(Option<BlockId>),
    /// The page is written to this block or, if to none, to a free one of the page file.
    NotItsBlock(Option<BlockId>),
    /// The page isn't private.
    PageIsShared,
    /// The page is private.
    PageIsPrivate,
    /// The page isn't written yet.
    NotYetWritten,
    /// The page lies in the block already, unmodified.
    WrittenAlready,
    /// The slot has no page that is valid in the frame.
    NotInSlot,
    /// The page isn't the victim, which is in this slot, if there is one.
    NotTheVictim(Option<u32>),
    /// The page is locked or pinned.
    PageIsFixed,
    /// The page is pinned.
    PageIsPinned,
    /// The protection of the page doesn't allow the reference.
    NotAllowed,
    /// The reference is refused for this reason, or isn't.
    RefusedOtherwise(Option<Why>),

    // The block.
    /// There is no such block.
    NoSuchBlock,
    /// The block has an open transfer.
    BlockInFlight,
    /// The block isn't one of the process's swap blocks.
    NotItsSwapBlock,

    // The transfer.
    /// No open transfer began in that line.
    NoOpenTransfer,
    /// That transfer is another seat's.
    TransferOfOtherSeat(Seat),
    /// That transfer is of this frame.
    TransferOfOtherFrame(Pfn),
    /// That transfer goes the other way.
    TransferGoesOtherWay,
    /// That transfer is the seat's own.
    TransferIsOwn,
    /// The collision with that read was named before.
    CollisionIsNamed,
    /// The seat has no open read for a fault or a neighbour.
    NoReadToFollow,
    /// The page is no kin of the one that was read before.
    NotKin,
    /// The frame has an open transfer.
    FrameInFlight,
    /// The seat isn't the writer's.
    NotTheWriter,
    /// A request is left to answer.
    RequestIsLeft,
    /// The lost read was for the page at this address.
    LostOtherPage(Addr),
    /// The count before is this one.
    WrongCountBefore(u64),
    /// The count after isn't above the one before.
    CountDoesNotRise,

    // The service.
    /// The service has no such answer.
    NoSuchAnswer,
    /// The version of the trace has no such service.
    NotOfVersion,
    /// The seat's last carrier isn't lost.
    CarrierNotLost,
    /// The process is resident, and the service meets no failed transfer.
    MayNotFail,
    /// The page of this number in the range is mapped.
    RangePageMapped(u32),
    /// The page of this number in the range isn't mapped.
    RangePageUnmapped(u32),
    /// No page of the range is mapped.
    RangeNotInUse,
    /// Each page of the range is mapped.
    RangeIsMapped,
    /// A page of the range is valid.
    RangePageValid,
    /// A page of the range has an open transfer.
    RangePageInFlight,
    /// So many pages would be locked or pinned, and the process may have so many.
    OverLocks(u32, u32),
    /// So many pages would be locked or pinned, and the process may have so many.
    WithinLocks(u32, u32),
    /// So many pages are counted.
    WrongPageCount(u32),
    /// So many pages of the range are valid, and so many of them are locked or pinned.
    NotPurged(u32, u32),
    /// The limit is at least this, and at most this.
    LimitOutOfBounds(u64, u32),
    /// The limit is within its bounds, at least this and at most this.
    LimitWithinBounds(u64, u32),
}
