use page_tables::{Look, Tables};
use pte_forms::{Place, Pte};
use std::test::Fail;
use vm_types::{Pfn, Proc};

const ZERO: Pte = Pte {
    prot: 4,
    place: Place::DemandZero,
};

const VALID: Pte = Pte {
    prot: 4,
    place: Place::Valid {
        modify: false,
        frame: Pfn(0),
    },
};

const BLOCK: Pte = Pte {
    prot: 15,
    place: Place::PageFile(16_383),
};

#[test]
fn changes_the_named_page_alone(rt: HostRuntime) -> Result<(), Fail> {
    let mut tables = Tables::new(rt.alloc(), 16)?;
    tables.map(Proc(0), 0, ZERO);
    tables.map(Proc(0), 1, ZERO);
    tables.map(Proc(15), 0x3f_ffff, BLOCK);
    tables.set(Proc(0), 0, VALID);
    tables.unmap(Proc(15), 0x3f_ffff);
    tables.map(Proc(15), 0x3f_fc00, BLOCK);
    let expected = [
        (0, 0, Some(0xa000_0000), Look::Entry(VALID)),
        (0, 1, Some(0x2000_0000), Look::Entry(ZERO)),
        (0, 4, None, Look::Absent),
        (0, 0x3f_fc00, None, Look::Absent),
        (1, 0, None, Look::Absent),
        (15, 0x3f_fc00, Some(0x7a00_3fff), Look::Entry(BLOCK)),
        (15, 0x3f_ffff, None, Look::Absent),
        (15, 0x40_0000, None, Look::Absent),
        (16, 0, None, Look::Absent),
    ];
    for (process, page, word, look) in expected {
        assert_eq!(rt; tables.word(Proc(process), page), word);
        assert_eq!(rt; tables.look(Proc(process), page), look);
    }
    Ok(())
}
