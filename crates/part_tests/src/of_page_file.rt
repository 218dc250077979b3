use page_file::{Full, PageFile};
use std::test::Fail;
use vm_types::{Page, Proc};

#[test]
fn fills_the_greatest_page_file_from_its_lowest_block(rt: HostRuntime) -> Result<(), Fail> {
    let mut file = PageFile::new(rt.alloc(), 16_384)?;
    for block in 0..16_384 {
        file.charge()?;
        let lowest = file.lowest();
        assert_eq!(rt; lowest, block);
        file.assign(lowest, Page::Private(Proc(0), block));
    }
    assert_eq!(rt; file.charge(), Err(Full));
    assert_eq!(rt; (file.charged(), file.assigned()), (16_384, 16_384));
    for block in [9, 5, 16_383] {
        assert!(rt; file.owner(block).is_some());
        file.release(block);
    }
    for block in [5, 9, 16_383] {
        assert!(rt; file.assigned() < file.charged());
        let lowest = file.lowest();
        assert_eq!(rt; lowest, block);
        file.assign(lowest, Page::Private(Proc(1), block));
    }
    Ok(())
}
