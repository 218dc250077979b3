use page_rows::PageRows;
use std::test::Fail;

#[test]
fn keeps_items_of_a_few_places(rt: HostRuntime) -> Result<(), Fail> {
    let mut rows = PageRows::new(rt.alloc(), 1280)?;
    rows.set(0, Some(1));
    rows.set(81_919, Some(2));
    rows.set(64, Some(3));
    rows.set(63, Some(4));
    rows.set(128, None);
    rows.set(0, None);
    let expected = [
        (0, None),
        (1, None),
        (63, Some(4)),
        (64, Some(3)),
        (65, None),
        (128, None),
        (81_918, None),
        (81_919, Some(2)),
        (81_920, None),
    ];
    for (place, item) in expected {
        assert_eq!(rt; rows.get(place), item);
    }
    Ok(())
}
