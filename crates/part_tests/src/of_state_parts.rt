use state_parts::{
    ChargedPage, ChargedPages, SwapPages, count_in, give_up, lock_range, locked_in, mark_pin,
    page_to_pin, pinned_in, put_in_slot, slot_of, take_slot, unlock_all,
};
use std::test::Fail;
use vm_journal::EvictWhy;
use vm_types::{Addr, BlockId, Page, Proc};
use working_set::{Choice, Ring};

/// A charged page that wasn't touched, with this block of the page file.
fn charged(block: u32) -> Option<ChargedPage> {
    Some(ChargedPage {
        touched: false,
        lies: Some(BlockId::PageFile(block)),
        assigned: Some(block),
    })
}

#[test]
fn keeps_pages_of_sixteen_processes(rt: HostRuntime) -> Result<(), Fail> {
    let mut pages = ChargedPages::new(rt.alloc(), 16, &[])?;
    let mut swaps = SwapPages::new(rt.alloc(), 16)?;
    pages.set(Page::Private(Proc(0), 0), charged(1));
    pages.set(Page::Private(Proc(14), 0x3f_ffff), charged(2));
    pages.set(Page::Private(Proc(15), 0), charged(3));
    pages.set(Page::Private(Proc(15), 0x3f_ffff), charged(4));
    pages.set(Page::Private(Proc(15), 0), None);
    let expected = [
        (0, 0, Some(1)),
        (0, 1, None),
        (14, 0x3f_ffff, Some(2)),
        (15, 0, None),
        (15, 0x3f_ffff, Some(4)),
        (15, 0x40_0000, None),
        (16, 0, None),
    ];
    for (p, page, block) in expected {
        let kept = pages.at(Page::Private(Proc(p), page));
        assert_eq!(rt; kept.and_then(|kept| kept.assigned), block);
    }
    swaps.set(Proc(0), 1023, Some(5));
    swaps.set(Proc(1), 0, Some(6));
    swaps.set(Proc(15), 1023, Some(7));
    swaps.set(Proc(1), 0, None);
    let expected = [
        (0, 1023, Some(5)),
        (0, 1024, None),
        (1, 0, None),
        (15, 1022, None),
        (15, 1023, Some(7)),
        (16, 0, None),
    ];
    for (p, slot, page) in expected {
        assert_eq!(rt; swaps.at(Proc(p), slot), page);
    }
    Ok(())
}

#[test]
fn changes_a_ring(rt: HostRuntime) -> Result<(), Fail> {
    let mut ring = Ring::new(rt.alloc(), 4)?;
    for page in 8..11 {
        assert!(rt; ring.count() < 3 && ring.slots() == 4);
        assert_eq!(rt; take_slot(&mut ring, 3, page), page - 8);
    }
    lock_range(&mut ring, Addr(9 * 512), 2, true);
    let ranges = [
        (Addr(0), 9, (1, 0)),
        (Addr(8 * 512 + 511), 1, (1, 0)),
        (Addr(8 * 512), 3, (3, 2)),
        (Addr(10 * 512), u32::MAX, (1, 1)),
        (Addr(11 * 512), 9, (0, 0)),
    ];
    for (at, pages, counts) in ranges {
        assert_eq!(rt;
            (count_in(&ring, at, pages), locked_in(&ring, at, pages)),
            counts
        );
    }
    for (page, slot) in [(8, 0), (10, 2), (11, 4)] {
        assert_eq!(rt; slot_of(&ring, page), slot);
    }
    assert!(rt; ring.slots() == 4 && ring.choose(3) == Choice::Victim(0));
    assert!(rt; slot_of(&ring, 8) < ring.slots());
    give_up(&mut ring, 3, EvictWhy::Replace, 8);
    assert_eq!(rt; (ring.hand(), slot_of(&ring, 8)), (0, 4));
    put_in_slot(&mut ring, 0, 12);
    assert!(rt; slot_of(&ring, 9) < ring.slots());
    give_up(&mut ring, 3, EvictWhy::Purge, 9);
    assert_eq!(rt;
        (ring.hand(), slot_of(&ring, 9), slot_of(&ring, 12)),
        (0, 4, 0)
    );
    assert_eq!(rt; (ring.count(), ring.locked()), (2, 1));
    unlock_all(&mut ring);
    assert_eq!(rt; (ring.count(), ring.locked()), (2, 0));
    Ok(())
}

#[test]
fn pins_a_page_of_a_ring(rt: HostRuntime) -> Result<(), Fail> {
    let mut ring = Ring::new(rt.alloc(), 4)?;
    for page in 8..10 {
        assert!(rt; ring.count() < 3 && ring.slots() == 4);
        assert_eq!(rt; take_slot(&mut ring, 3, page), page - 8);
    }
    assert!(rt; ring.slots() == 4);
    let at = Addr(9 * 512);
    for (slot, page) in [(0, None), (1, Some(9)), (2, None)] {
        assert!(rt; slot < ring.slots());
        assert_eq!(rt; page_to_pin(&ring, slot, at, 2, true), page);
        assert_eq!(rt; page_to_pin(&ring, slot, at, 2, false), None);
    }
    assert!(rt; ring.slots() == 4);
    mark_pin(&mut ring, 1, true);
    assert!(rt; ring.slots() == 4 && pinned_in(&ring, at, 2) == 1);
    assert_eq!(rt; page_to_pin(&ring, 1, at, 2, true), None);
    assert_eq!(rt; page_to_pin(&ring, 1, at, 2, false), Some(9));
    for (page, was) in [(9, true), (8, false)] {
        assert!(rt; slot_of(&ring, page) < ring.slots());
        assert_eq!(rt; give_up(&mut ring, 3, EvictWhy::Purge, page), was);
    }
    assert!(rt; ring.count() == 0 && pinned_in(&ring, at, 2) == 0);
    Ok(())
}
