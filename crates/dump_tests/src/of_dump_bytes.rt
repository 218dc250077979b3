use crate::one_page::{ONE_PAGE, changed, read};
use dump_bytes::{Dump, DumpFault, FrameRec, ProcRec, SlotRec, write_dump};
use outside_io::{MemorySink, WriteFault};
use std::alloc::{AllocError, Global};
use std::test::Fail;
use vm_types::{Page, Proc};

fn one_page(alloc: Global) -> Result<Dump, AllocError> {
    let none = FrameRec {
        state: 0,
        modify: false,
        page: None,
        refs: 0,
        shares: 0,
    };
    let active = FrameRec {
        state: 7,
        modify: true,
        page: Some(Page::Private(Proc(0), 0)),
        refs: 1,
        shares: 1,
    };
    let empty = SlotRec {
        filled: false,
        locked: false,
        pinned: false,
        vpn: 0,
    };
    let filled = SlotRec {
        filled: true,
        locked: false,
        pinned: false,
        vpn: 0,
    };
    let proc = ProcRec {
        status: 0,
        hand: 1,
        limit: 4,
        slots: vec![in alloc; filled, empty, empty, empty]?,
        words: vec![in alloc; (0, 0xa400_0000)]?,
    };
    Ok(Dump {
        frames: vec![in alloc; active, none, none, none, none, none, none, none]?,
        free: vec![in alloc; 1, 2, 3, 4, 5, 6, 7]?,
        modified: Vec::new(alloc),
        size: 4,
        charged: 1,
        assigned: 0,
        procs: vec![in alloc; proc]?,
        flights: Vec::new(alloc),
    })
}

#[test]
fn a_dump_is_read_and_written_back(rt: HostRuntime) -> Result<(), Fail> {
    let alloc = rt.alloc();
    let dump = read(alloc, ONE_PAGE.to_vec(alloc)?, &[])??;
    assert_eq!(rt;
        format!(in alloc; "{dump:?}")?,
        format!(in alloc; "{:?}", one_page(alloc)?)?
    );
    let more = read(alloc, changed(alloc, 51, 2)?, &[])??;
    assert_eq!(rt; more.frames.len(), 8);
    assert_eq!(rt; more.frames[0].refs, 2);
    // Room, failing and stalling calls; the answer, and how many bytes were taken.
    let table: [(u32, &[u32], &[u32], Result<(), WriteFault>, usize); 4] = [
        (288, &[], &[], Ok(()), 288),
        (288, &[3], &[], Err(WriteFault::Failed), 56),
        (288, &[], &[3], Err(WriteFault::NoneTaken), 56),
        (100, &[], &[], Err(WriteFault::NoneTaken), 100),
    ];
    for (room, fails, stalls, answer, taken) in table {
        let mut sink = MemorySink::new(alloc, room, fails.to_vec(alloc)?, stalls.to_vec(alloc)?)?;
        assert_eq!(rt; write_dump(&dump, &mut sink), answer);
        assert_eq!(rt; Some(sink.taken()), ONE_PAGE.get(..taken));
    }
    Ok(())
}

#[test]
fn the_first_bad_byte_is_told(rt: HostRuntime) -> Result<(), Fail> {
    let alloc = rt.alloc();
    // The place of a byte and its new value, and how many bytes are good.
    let table = [
        (3, 0, 3),
        (11, 7, 11),
        (10, 0x40, 11),
        (36, 8, 36),
        (38, 3, 38),
        (43, 1, 43),
        (63, 1, 63),
        (199, 8, 199),
        (224, 4, 224),
        (231, 0, 231),
        (235, 4, 235),
        (240, 2, 240),
        (255, 1, 255),
        (275, 5, 275),
        (280, 0x24, 280),
        (280, 0x8c, 280),
        (283, 8, 283),
        (287, 9, 287),
        (287, 1, 288),
    ];
    for (place, byte, good) in table {
        let answer = read(alloc, changed(alloc, place, byte)?, &[])?;
        assert_eq!(rt; answer.err(), Some(DumpFault::Bad(good)), "byte {place}");
    }
    // What stands behind the whole dump but its last byte, and how many bytes are good.
    let ends: [(&[u8], u64); 4] = [
        (&[], 287),
        (&[0, 0], 288),
        (&[2, 0, 0, 0, 1, 0, 0, 0, 1], 295),
        (&[2, 0, 0, 0, 7, 0, 0, 0, 7], 291),
    ];
    for (end, good) in ends {
        let mut bytes = ONE_PAGE[..287].to_vec(alloc)?;
        bytes.extend_from_slice(end)?;
        assert_eq!(rt; read(alloc, bytes, &[])?.err(), Some(DumpFault::Bad(good)));
    }
    Ok(())
}

#[test]
fn a_dump_that_is_cut_or_goes_on_is_bad_there(rt: HostRuntime) -> Result<(), Fail> {
    let alloc = rt.alloc();
    for count in 0..288 {
        let answer = read(alloc, ONE_PAGE[..count].to_vec(alloc)?, &[])?;
        assert_eq!(rt; answer.err(), Some(DumpFault::Bad(count as u64)));
    }
    for byte in [0, 1, 8, 0xff] {
        let mut bytes = ONE_PAGE.to_vec(alloc)?;
        bytes.push(byte)?;
        assert_eq!(rt; read(alloc, bytes, &[])?.err(), Some(DumpFault::Bad(288)));
    }
    Ok(())
}

#[test]
fn a_cut_dump_and_a_failed_read_are_told_apart(rt: HostRuntime) -> Result<(), Fail> {
    let alloc = rt.alloc();
    // How many bytes there are, the call that fails, and the answer.
    let table = [
        (100, 0, DumpFault::Bad(100)),
        (0, 0, DumpFault::Bad(0)),
        (100, 2, DumpFault::ReadFault),
        (288, 2, DumpFault::ReadFault),
        (288, 1, DumpFault::ReadFault),
    ];
    for (count, fails, answer) in table {
        let bytes = ONE_PAGE[..count].to_vec(alloc)?;
        assert_eq!(rt; read(alloc, bytes, &[fails])?.err(), Some(answer));
    }
    // The byte that was read before the failed call is bad.
    assert_eq!(rt;
        read(alloc, changed(alloc, 36, 8)?, &[2])?.err(),
        Some(DumpFault::Bad(36))
    );
    Ok(())
}
