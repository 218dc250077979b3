use global_pages::Globals;
use std::test::Fail;
use vm_types::Pfn;

#[test]
fn keeps_frame_and_count_of_each_page(rt: HostRuntime) -> Result<(), Fail> {
    // The greatest number of section pages, and its last page.
    let mut pages = Globals::new(rt.alloc(), 16_384)?;
    assert_eq!(rt; (pages.frame(16_383), pages.count(16_383)), (None, 0));
    pages.set_frame(16_383, Some(Pfn(4095)));
    pages.share(16_383);
    pages.share(16_383);
    pages.unshare(16_383);
    pages.share(0);
    assert_eq!(rt;
        (pages.frame(16_383), pages.count(16_383)),
        (Some(Pfn(4095)), 1)
    );
    assert_eq!(rt; (pages.frame(0), pages.count(0)), (None, 1));
    pages.set_frame(16_383, None);
    assert_eq!(rt; (pages.frame(16_383), pages.count(16_383)), (None, 1));
    Ok(())
}
