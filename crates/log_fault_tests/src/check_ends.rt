use arrayvec::ArrayVec;
use check_command::check;
use disk_trait::MemoryDepot;
use outside_io::{MemorySink, MemorySource};
use replay_cli::{CallEnds, Status};
use std::test::Fail;

// A trace of one process without requests.
const TRACE: &[u8] = b"VMTRACE 1\nFRAMES 8\nPAGEFILE 4\nPROCESS A 4 4 4 0\nBODY\nEND\n";

// What stands behind END, the number of a failing write, the status, and what is written.
#[test]
fn judges_what_stands_behind_a_trace(rt: HostRuntime) -> Result<(), Fail> {
    let alloc = rt.alloc();
    let whole: &[u8] = b"\nLOG\nPFN AT 0\n\
FREE 8 MODIFIED 0 BAD 0 RELEASE 0 READERROR 0 WRITING 0 READING 0 ACTIVE 0\n\
PAGEFILE 4 CHARGED 0 ASSIGNED 0\n\
PROCESS A RESIDENT COUNT 0 LIMIT 4\n\
STATUS 0\n";
    let faulty: &[u8] = b"LOG\nPFN AT 0\nFREE 7\n";
    let table: [(&[u8], u32, u8, &[u8]); 6] = [
        (whole, 9, 0, b"LOG OK 0\nSTATUS 0\n"),
        (whole, 2, 4, b"LOG OK 0\n"),
        (faulty, 9, 8, b"LOG FAULT 2\nSTATUS 8\n"),
        (faulty, 1, 4, b""),
        (b"! LOG\n", 9, 2, b"TRACE UNFINISHED\nSTATUS 2\n"),
        (b"LOG IT\n", 9, 2, b"TRACE 7 MISPLACED\nSTATUS 2\n"),
    ];
    for (behind, failing, status, written) in table {
        let mut text = TRACE.to_vec(alloc)?;
        text.extend_from_slice(behind)?;
        let fails = vec![in alloc; failing]?;
        let mut ends = CallEnds {
            source: MemorySource::new(text, Vec::new(alloc)),
            output: MemorySink::new(alloc, 100, fails, Vec::new(alloc))?,
            depot: MemoryDepot::new(alloc, Vec::new(alloc)),
        };
        assert_eq!(rt;
            check(alloc, &mut ends, &mut ArrayVec::new()).0,
            Status(status)
        );
        assert_eq!(rt; ends.output.taken(), written);
    }
    Ok(())
}
