use trace_lines::{Place, block_key, page_key};
use trace_words::Param;
use vm_types::{BlockId, Proc, SecId};

#[test]
fn keys_differ(rt: HostRuntime) {
    let blocks = [
        BlockId::Section(SecId(0), 16_383),
        BlockId::Section(SecId(63), 16_383),
        BlockId::PageFile(0),
        BlockId::PageFile(16_383),
        BlockId::Swap(Proc(0), 0),
        BlockId::Swap(Proc(15), 1023),
    ];
    let mut last = 0;
    for block in blocks {
        let key = block_key(block);
        assert!(rt; last < key);
        last = key;
    }
    assert!(rt; page_key(1, 0) > page_key(0, 0x3f_ffff));
    assert!(rt; Place::Ended.rank() == 5 && Param::BorrowLim.number() == 13);
}
