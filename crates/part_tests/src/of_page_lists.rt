use page_lists::{ListName, Lists};
use std::test::Fail;

// The greatest memory, and its last frame.
#[test]
fn keeps_the_order_and_lends_the_cells(rt: HostRuntime) -> Result<(), Fail> {
    let mut lists = Lists::new(rt.alloc(), 4096)?;
    let l = ListName::Free;
    lists.push_tail(l, 2);
    lists.push_tail(l, 0);
    lists.push_tail(l, 4095);
    lists.remove(l, 0);
    assert_eq!(rt; lists.cells(0), (0, 0));
    lists.push_head(l, 1);
    assert_eq!(rt; (lists.next(2), lists.next(4095)), (Some(4095), None));
    assert_eq!(rt;
        (lists.on(4095), lists.on(0), lists.on(4096)),
        (Some(l), None, None)
    );
    lists.set_cells(0, (7, 9));
    assert_eq!(rt; lists.cells(0), (7, 9));
    lists.push_tail(ListName::Modified, 0);
    assert_eq!(rt; lists.head(ListName::Modified), Some(0));
    assert_eq!(rt; lists.len(l), 3);
    for expected in [Some(1), Some(2), Some(4095), None] {
        assert_eq!(rt; lists.pop_head(l), expected);
    }
    Ok(())
}
