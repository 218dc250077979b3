use crate::configs::config;
use section_table::Sections;
use std::test::Fail;
use vm_types::{BlockId, Origin, Page, Proc, SecId};

#[test]
fn knows_what_is_behind_pages(rt: HostRuntime) -> Result<(), Fail> {
    let config = config(rt.alloc(), 1)?;
    let mut sections = Sections::new(rt.alloc(), &config)?;
    let (first, last, last_page) = (Proc(0), Proc(15), 0x3f_ffff);
    let shared = Origin::Section(SecId(0), 0);
    let copied = Origin::Section(SecId(1), 0);
    let expected = [
        (first, 0, Some(Origin::Zero)),
        (first, 2, Some(shared)),
        (first, 3, Some(copied)),
        (first, 5, None),
        (first, last_page, None),
        (last, 0, None),
        (last, last_page, Some(copied)),
        (Proc(16), 0, None),
        (last, 0x40_0000, None),
    ];
    for (p, page, behind) in expected {
        assert_eq!(rt; sections.behind(p, page), behind);
    }
    let homes = [
        (
            Page::Shared(SecId(0), 0),
            Some(BlockId::Section(SecId(0), 0)),
        ),
        (Page::Shared(SecId(0), 1), None),
        (Page::Shared(SecId(1), 0), None),
        (Page::Shared(SecId(2), 0), None),
        (Page::Private(first, 0), None),
        (Page::Private(first, 2), None),
        (
            Page::Private(last, last_page),
            Some(BlockId::Section(SecId(1), 0)),
        ),
    ];
    for (page, home) in homes {
        assert_eq!(rt; sections.home(page), home);
    }
    assert!(rt; sections.behind(last, last_page).is_some());
    sections.forget(last, last_page);
    assert_eq!(rt; sections.home(Page::Private(last, last_page)), None);
    assert!(rt; sections.behind(last, last_page).is_none());
    sections.create(last, last_page);
    assert_eq!(rt; sections.behind(last, last_page), Some(Origin::Zero));
    assert_eq!(rt; sections.behind(first, 2), Some(shared));
    Ok(())
}
