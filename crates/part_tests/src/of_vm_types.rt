use std::test::Fail;
use vm_types::{Addr, Listed, Mode, Proc, allowed, page_place, split};

#[test]
fn pushes_with_ample_memory(rt: HostRuntime) -> Result<(), Fail> {
    let mut list = Listed::new(rt.alloc());
    list.push(7u32)?;
    list.push(9)?;
    assert_eq!(rt; list.items(), [7, 9].as_slice());
    list.items_mut()[0] = 8;
    let back = Listed::of(list.into_items());
    assert_eq!(rt; back.items(), [8, 9].as_slice());
    Ok(())
}

#[test]
fn splits_allows_and_places(rt: HostRuntime) {
    // Region, page and byte of addresses of P0, P1 and S0.
    let table = [
        (0x0000_0000, (0, 0, 0)),
        (0x0000_03ff, (0, 1, 0x1ff)),
        (0x7fff_fc00, (1, 0x1f_fffe, 0)),
        (0x8000_0200, (2, 1, 0)),
        (0xffff_ffff, (3, 0x1f_ffff, 0x1ff)),
    ];
    for (address, parts) in table {
        assert_eq!(rt; split(Addr(address)), parts);
    }
    // UR is read by all and written by none, EW by kernel and executive, NA by nobody.
    assert!(rt; allowed(15, Mode::U, false) && !allowed(15, Mode::K, true));
    assert!(rt; allowed(5, Mode::E, true) && !allowed(5, Mode::S, false));
    assert!(rt; !allowed(0, Mode::K, false) && !allowed(1, Mode::K, false));
    // The first and last pages of both regions, and the pages just outside.
    let table = [
        (0, 0, Some(0)),
        (0, 4095, Some(4095)),
        (0, 4096, None),
        (0, 0x3f_fbff, None),
        (0, 0x3f_fc00, Some(4096)),
        (15, 0x3f_ffff, Some(81_919)),
        (15, 0x40_0000, None),
    ];
    for (process, page, place) in table {
        assert_eq!(rt; page_place(Proc(process), page), place);
    }
}
