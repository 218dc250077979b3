use command_ends::{Status, end_fault, end_with};
use outside_io::MemorySink;
use std::test::Fail;
use trace_reader::{Breach, Cause, TraceFault};

// The first room, the text and the status of each end.
#[test]
fn ends_with_a_text(rt: HostRuntime) -> Result<(), Fail> {
    let alloc = rt.alloc();
    let table = [
        (
            100,
            TraceFault::Line(7, Breach::at_word(3, Cause::Unaligned)),
            2,
            "TRACE 7 UNALIGNED\nSTATUS 2\n",
        ),
        (
            100,
            TraceFault::Line(200_000, Breach::at_word(0, Cause::LineTooLong)),
            2,
            "TRACE 200000 LINETOOLONG\nSTATUS 2\n",
        ),
        (
            100,
            TraceFault::Unfinished,
            2,
            "TRACE UNFINISHED\nSTATUS 2\n",
        ),
        (100, TraceFault::Empty, 2, "TRACE UNFINISHED\nSTATUS 2\n"),
        (100, TraceFault::ReadFault, 3, "STATUS 3\n"),
        (100, TraceFault::NoMemory, 7, "STATUS 7\n"),
        (20, TraceFault::Unfinished, 4, "TRACE UNFINISHED\nSTA"),
    ];
    for (room, fault, status, text) in table {
        let mut sink = MemorySink::new(alloc, room, Vec::new(alloc), Vec::new(alloc))?;
        assert_eq!(rt; end_fault(fault, &mut sink), Status(status));
        assert_eq!(rt; sink.taken(), text.as_bytes());
    }
    let mut sink = MemorySink::new(alloc, 100, Vec::new(alloc), Vec::new(alloc))?;
    assert_eq!(rt; end_with(0, &mut sink), Status(0));
    assert_eq!(rt; sink.taken(), b"STATUS 0\n".as_slice());
    Ok(())
}
