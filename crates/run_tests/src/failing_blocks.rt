//! Blocks that fail at one of their calls.

use disk_trait::MemoryDepot;
use program_runs::{serial, serial_over};
use replay_cli::Status;
use std::alloc::Global;
use std::test::Fail;
use vm_types::{BlockId, NoMemory, SecId};
use worked_runs::{
    DIRTY_IN_THE_PAGE_FILE, DIRTY_IN_THE_PAGE_FILE_TEXT, DIRTY_PAGE, DIRTY_PAGE_TEXT,
};

// Two processes with a shared section of two pages, a copied one and pages of zeros: eight pages
// in five frames, so pages are read and written in clusters and both processes leave and come
// back.
const OPENING: &str = "VMTRACE 1\n\
FRAMES 8\n\
PAGEFILE 6\n\
PARAM WRTCLUSTER 2\n\
PARAM PFC 2\n\
BAD 5\n\
BAD 6\n\
BAD 7\n\
SECTION LIB SHARED 2\n\
SECTION IMG CRF 1\n\
DATA LIB 0 11\n\
DATA LIB 512 22\n\
DATA IMG 0 33\n\
PROCESS A 3 3 3 0\n\
PROCESS B 3 3 3 0\n\
MAPSEC A 00000000 2 LIB 0 UW\n\
MAPSEC A 00000400 1 IMG 0 UW\n\
MAPZERO A 00000600 2 UW\n\
MAPSEC B 00000000 2 LIB 0 UW\n\
MAPSEC B 00000400 1 IMG 0 UW\n\
MAPZERO B 00000600 2 UW\n";

// Its requests.
const REQUESTS: &str = "BODY\n\
A W1 00000000 01\n\
A W1 00000400 02\n\
A W1 00000600 03\n\
A W1 00000800 04\n\
A W1 00000200 05\n\
B W1 00000400 06\n\
B W1 00000000 07\n\
B W1 00000600 08\n\
B W1 00000200 09\n\
B W1 00000800 0A\n\
A R1 00000400\n\
A W1 00000600 0C\n\
A R1 00000800\n\
A R1 00000000\n\
B W1 00000600 0F\n\
B R1 00000400\n\
B R1 00000800\n\
B R1 00000000\n\
A W1 00000400 13\n\
A R1 00000600\n\
A R1 00000200\n\
A W1 00000800 16\n\
B W1 00000400 17\n\
B W1 00000800 18\n\
B R1 00000200\n\
B R1 00000600\n\
END\n";

// The blocks of the configuration, but for two of the page file that no run takes.
const BLOCKS: [&str; 13] = [
    "S:LIB/0", "S:LIB/1", "S:IMG/0", "P:0", "P:1", "P:2", "P:3", "X:A/0", "X:A/1", "X:A/2",
    "X:B/0", "X:B/1", "X:B/2",
];

// The trace with a block that fails at one call.
fn failing(alloc: Global, block: &str, call: &str) -> Result<Vec<u8>, NoMemory> {
    let mut text = Vec::from_slice(alloc, OPENING.as_bytes())?;
    for piece in ["FAIL ", block, " ", call, "\n", REQUESTS] {
        text.extend_from_slice(piece.as_bytes())?;
    }
    Ok(text)
}

// How often a word stands in a text.
fn count(text: &[u8], word: &[u8]) -> usize {
    let mut found = 0usize;
    for at in 0..text.len() {
        if text[at..].starts_with(word) {
            found = found.saturating_add(1);
        }
    }
    found
}

#[test]
fn tells_a_dirty_page(rt: HostRuntime) -> Result<(), Fail> {
    let table: [(&str, &str); 2] = [
        (DIRTY_PAGE, DIRTY_PAGE_TEXT),
        (DIRTY_IN_THE_PAGE_FILE, DIRTY_IN_THE_PAGE_FILE_TEXT),
    ];
    for (trace, text) in table {
        let told = serial(rt.alloc(), trace.as_bytes())?;
        assert_eq!(rt; told.0, Status(5));
        assert_eq!(rt; told.1.as_slice(), text.as_bytes());
    }
    Ok(())
}

// A call that fails refuses one request at most, and none if the run doesn't come to it. What one failed
// write leaves behind is written by the second round, so no page is dirty; the copied section's block
// keeps its first bytes.
#[test]
fn each_call_fails_in_turn(rt: HostRuntime) -> Result<(), Fail> {
    let alloc = rt.alloc();
    for block in BLOCKS {
        for call in ["1", "2", "3", "4"] {
            let depot = MemoryDepot::new(alloc, Vec::new(alloc));
            let text = failing(alloc, block, call)?;
            let told = serial_over(alloc, &text, depot)?;
            assert_eq!(rt; told.0, Status(0));
            let failures = count(&told.1, b"FAIL F");
            assert!(rt; failures <= 1);
            assert!(rt; count(&told.1, b" DISKFAULT\n") <= failures);
            let copied = told
                .2
                .retired(BlockId::Section(SecId(1), 0))
                .ok_or("it was retired")?;
            assert_eq!(rt; copied.bytes()[0], 0x33);
        }
    }
    Ok(())
}
