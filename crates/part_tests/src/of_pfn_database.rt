use pfn_database::{ListName, Pfns};
use std::test::Fail;
use vm_types::Pfn;

#[test]
fn opens_with_all_good_frames_free(rt: HostRuntime) -> Result<(), Fail> {
    let pfns = Pfns::new(rt.alloc(), 4096, &[4095, 7])?;
    assert_eq!(rt; pfns.list_len(ListName::Free), 4094);
    assert_eq!(rt; pfns.list_len(ListName::Modified), 0);
    assert_eq!(rt; pfns.list_head(ListName::Modified), None);
    let mut next = pfns.list_head(ListName::Free);
    for number in 0..4095 {
        if number != 7 {
            assert_eq!(rt; next, Some(Pfn(number)));
            next = pfns.list_next(Pfn(number));
        }
    }
    assert_eq!(rt; next, None);
    Ok(())
}
