//! Which words go with a condition, and what would have been right.

ghost use Rattle.std.specs.Prelude.{◌≡◌};
ghost use Rattle.command_messages.specs.Texts.{AreWords};
ghost use Rattle.command_messages.specs.ReasonText.{frame_words, more_right, page_words, process_words, right_of, seat_words, service_words, transfer_words};

use crate::right::Right;
use log_reasons::Reason;

// The words of a condition of the seat and its turn, or of one of those below.
pub(crate) fn seat_words(reason: Reason) -> &'static [u8]
    ensures { AreWords result.now (seat_words reason) 80 }
{
    match reason {
        Reason::ReuseComesNext(_, _) =>
            b"a read has failed, and next comes the reuse of its frame, %, by its seat",
        Reason::SeatHasOpenTransfer =>
            b"the seat has an open transfer, and the entry is none that goes with one",
        Reason::CarrierHasLanded(_) =>
            b"transfers of the seat have landed, %, and the next one begins when all have",
        Reason::CarrierGoesOtherWay => b"the seat's open transfers go the other way",
        Reason::NotNextBlock(_) =>
            b"the block isn't the one behind %, that of the seat's last transfer",
        Reason::ClusterIsFull(_) => b"the seat has as many transfers as a cluster may have, %",
        Reason::FaultIsNotFirst =>
            b"a read for a fault is the first of its transfers, and the seat has an open one",
        _ => process_words(reason),
    }
}

// The words of a condition of the process, or of one of those below.
fn process_words(reason: Reason) -> &'static [u8]
    ensures { AreWords result.now (process_words reason) 80 }
{
    match reason {
        Reason::NoSuchProcess(_) => b"there are only so many processes, %",
        Reason::NotResident(_) => b"the process isn't RESIDENT, but %",
        Reason::InOtherStatus(_) => b"the process is in another status, %",
        Reason::NotOwnProcess => b"the process isn't the seat's own",
        Reason::CountAtLimit(_, _) => b"the working set is full, with % pages",
        Reason::CountBelowLimit(_, _) => b"the working set isn't full, with % pages",
        Reason::AdjustmentIsPending(_) => b"the limit is adjusted first, after % references",
        Reason::AdjustmentNotPending(_) => b"no adjustment of the limit is due, after % references",
        Reason::WrongFaults(_) =>
            b"another number of faults is counted since the last adjustment, %",
        Reason::WrongLimit(_) => b"the rule gives another limit, %",
        Reason::PageIsComing => b"a page of the process is being read back",
        Reason::PagesAreLeft(_) => b"pages that aren't pinned are left in the working set, %",
        Reason::OtherIsComing => b"another process is coming",
        Reason::PagesAreSwapped => b"a page of the process still lies in a swap block",
        _ => frame_words(reason),
    }
}

// The words of a condition of the frame, or of one of those below.
fn frame_words(reason: Reason) -> &'static [u8]
    ensures { AreWords result.now (frame_words reason) 80 }
{
    match reason {
        Reason::NotAtFreeHead(_) => b"the frame doesn't head the free list; % does",
        Reason::NotAtModifiedHead(_) => b"the frame doesn't head the modified list; % does",
        Reason::FrameNotEmpty(_) => b"the frame still holds %, and gives it up first",
        Reason::FrameIsEmpty => b"the frame holds no page",
        Reason::HoldsOtherPage(_) => b"the frame doesn't hold the page; it holds %",
        Reason::InOtherState(_) => b"the frame's state is another one, %",
        Reason::MayNotComeBack => b"a page in a frame of that state doesn't come back",
        Reason::NotFromFree => b"a page of a coming process comes back from the free list alone",
        Reason::GoesElsewhere(_) => b"the frame goes to another state, %",
        Reason::ModifiedListAtWaitLimit(_) =>
            b"the modified list has as many frames as it may have, %",
        Reason::FrameInFlight => b"the frame has an open transfer",
        _ => page_words(reason),
    }
}

// The words of a condition of the page, or of one of those below.
fn page_words(reason: Reason) -> &'static [u8]
    ensures { AreWords result.now (page_words reason) 80 }
{
    match reason {
        Reason::NotMapped => b"the page isn't mapped",
        Reason::NotZeros => b"the page isn't made of zeros",
        Reason::PageIsCharged => b"the page was touched before",
        Reason::NoBlockIsLeft(_) => b"each block of the page file is promised to a page, all %",
        Reason::PageIsValid => b"the page is valid already",
        Reason::PageNotValid => b"the page isn't valid",
        Reason::ValidInOtherFrame(_) => b"the page is valid in another frame, %",
        Reason::PageInMemory => b"a frame still holds the page",
        Reason::LiesElsewhere(_) => b"the page lies in another block, %",
        Reason::NotItsBlock(_) => b"the page is written to another block, %",
        Reason::PageIsShared => b"the page is one of a shared section",
        Reason::PageIsPrivate => b"the page is a process's own",
        Reason::NotYetWritten => b"the page isn't written to its swap block yet",
        Reason::WrittenAlready => b"the page lies in the block already, and isn't modified",
        Reason::NotInSlot => b"the slot has no page that is valid in the frame",
        Reason::NotTheVictim(_) => b"the page isn't the victim, which is in slot %",
        Reason::PageIsFixed => b"the page is locked or pinned",
        Reason::PageIsPinned => b"the page is pinned",
        Reason::NotAllowed => b"the protection of the page doesn't allow the reference",
        Reason::RefusedOtherwise(_) => b"the reference isn't refused so, but: %",
        _ => transfer_words(reason),
    }
}

// The words of a condition of the block and the transfer, or of one of those below.
fn transfer_words(reason: Reason) -> &'static [u8]
    ensures { AreWords result.now (transfer_words reason) 80 }
{
    match reason {
        Reason::NoSuchBlock => b"there is no such block",
        Reason::BlockInFlight => b"the block has an open transfer",
        Reason::NotItsSwapBlock => b"the block isn't one of the process's swap blocks",
        Reason::NoOpenTransfer => b"no open transfer began in the entry of that number",
        Reason::TransferOfOtherSeat(_) => b"that transfer is another seat's",
        Reason::TransferOfOtherFrame(_) => b"that transfer is of another frame, %",
        Reason::TransferGoesOtherWay => b"that transfer goes the other way",
        Reason::TransferIsOwn => b"that transfer is the seat's own",
        Reason::CollisionIsNamed => b"the collision with that read was named before",
        Reason::NoReadToFollow =>
            b"the seat has no open read for a fault or a neighbour that this one follows",
        Reason::NotKin =>
            b"the page isn't of the process or the section of the page that was read before",
        Reason::NotTheWriter => b"the seat isn't MPW",
        Reason::RequestIsLeft => b"a request is left to answer",
        Reason::LostOtherPage(_) => b"the read that was lost was for another page, at %",
        Reason::CarrierNotLost => b"the seat's last transfers aren't lost",
        Reason::WrongCountBefore(_) => b"the block's count of failures before it is another one, %",
        Reason::CountDoesNotRise =>
            b"the block's count of failures after it isn't above the one before",
        _ => service_words(reason),
    }
}

// The words of a condition of the service, or of one of those below.
fn service_words(reason: Reason) -> &'static [u8]
    ensures { AreWords result.now (service_words reason) 80 }
{
    match reason {
        Reason::NoSuchAnswer => b"the service has no such answer",
        Reason::NotOfVersion => b"the version of the trace has no such service",
        Reason::MayNotFail => b"the process is RESIDENT, and the service meets no failed transfer",
        Reason::RangePageMapped(_) => b"a page of the range is mapped, that of page number %",
        Reason::RangePageUnmapped(_) => b"a page of the range isn't mapped, that of page number %",
        Reason::RangeNotInUse => b"no page of the range is mapped",
        Reason::RangeIsMapped => b"each page of the range is mapped",
        Reason::RangePageValid => b"a page of the range is still valid",
        Reason::RangePageInFlight => b"a page of the range has an open transfer",
        Reason::OverLocks(_, _) =>
            b"the process may not have as many pages locked or pinned, % pages",
        Reason::WithinLocks(_, _) =>
            b"the process may have as many pages locked or pinned, % pages",
        Reason::WrongPageCount(_) => b"another number of pages is counted, %",
        Reason::NotPurged(_, _) => b"valid pages of the range are neither locked nor pinned; % are",
        Reason::LimitOutOfBounds(_, _) => b"the limit is out of its bounds, %",
        Reason::LimitWithinBounds(_, _) => b"the limit is within its bounds, %",
        _ => b"",
    }
}

// What would have been right by a later one of the conditions.
fn more_right(reason: Reason) -> Right
    ensures { result ≡ more_right reason }
{
    match reason {
        Reason::GoesElsewhere(state) => Right::State(state),
        Reason::ModifiedListAtWaitLimit(n) => Right::Number(u64::from(n)),
        Reason::NoBlockIsLeft(n) => Right::Number(u64::from(n)),
        Reason::ValidInOtherFrame(frame) => Right::Frame(Some(frame.0)),
        Reason::LiesElsewhere(block) => Right::Block(block),
        Reason::NotItsBlock(block) => Right::Block(block),
        Reason::NotTheVictim(slot) => Right::Slot(slot),
        Reason::RefusedOtherwise(why) => Right::Refusal(why),
        Reason::TransferOfOtherFrame(frame) => Right::Frame(Some(frame.0)),
        Reason::LostOtherPage(at) => Right::Address(at),
        Reason::WrongCountBefore(n) => Right::Number(n),
        Reason::RangePageMapped(v) => Right::Number(u64::from(v)),
        Reason::RangePageUnmapped(v) => Right::Number(u64::from(v)),
        Reason::OverLocks(n, most) => Right::Of(u64::from(n), u64::from(most)),
        Reason::WithinLocks(n, most) => Right::Of(u64::from(n), u64::from(most)),
        Reason::WrongPageCount(n) => Right::Number(u64::from(n)),
        Reason::NotPurged(valid, fixed) => Right::Of(u64::from(fixed), u64::from(valid)),
        Reason::LimitOutOfBounds(least, most) => Right::Range(least, u64::from(most)),
        Reason::LimitWithinBounds(least, most) => Right::Range(least, u64::from(most)),
        _ => Right::Nothing,
    }
}

// What would have been right, where one value would.
pub(crate) fn right_of(reason: Reason) -> Right
    ensures { result ≡ right_of reason }
{
    match reason {
        Reason::ReuseComesNext(_, frame) => Right::Frame(Some(frame.0)),
        Reason::CarrierHasLanded(n) => Right::Number(n),
        Reason::NotNextBlock(block) => Right::Block(Some(block)),
        Reason::ClusterIsFull(most) => Right::Number(u64::from(most)),
        Reason::NoSuchProcess(n) => Right::Number(n as u64),
        Reason::NotResident(status) => Right::Status(status),
        Reason::InOtherStatus(status) => Right::Status(status),
        Reason::CountAtLimit(count, limit) => Right::Of(u64::from(count), u64::from(limit)),
        Reason::CountBelowLimit(count, limit) => Right::Of(u64::from(count), u64::from(limit)),
        Reason::AdjustmentIsPending(n) => Right::Number(n),
        Reason::AdjustmentNotPending(n) => Right::Number(n),
        Reason::WrongFaults(n) => Right::Number(n),
        Reason::WrongLimit(n) => Right::Number(n),
        Reason::PagesAreLeft(n) => Right::Number(u64::from(n)),
        Reason::NotAtFreeHead(head) => Right::Frame(head),
        Reason::NotAtModifiedHead(head) => Right::Frame(head),
        Reason::FrameNotEmpty(page) => Right::Page(Some(page)),
        Reason::HoldsOtherPage(page) => Right::Page(page),
        Reason::InOtherState(state) => Right::State(state),
        _ => more_right(reason),
    }
}
