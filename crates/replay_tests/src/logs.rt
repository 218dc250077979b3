//! What `check` says of the logs of racing runs: they are legal, whichever runs they were.

use crate::replays::replay;
use program_runs::outcome;
use replay_cli::Status;
use std::alloc::Global;
use std::test::*;

/// Three processes with too few frames for their shared and private pages.
const HEAD: &str = "VMTRACE 1\nFRAMES 8\nPAGEFILE 20\nSECTION CNT SHARED 4\n\
PROCESS A 2 4 6 0\nPROCESS B 2 4 6 0\nPROCESS C 2 4 6 0\n\
MAPSEC A 00000000 4 CNT 0 UW\nMAPSEC B 00000000 4 CNT 0 UW\nMAPSEC C 00000000 4 CNT 0 UW\n\
MAPZERO A 00002000 6 UW\nMAPZERO B 00002000 6 UW\nMAPZERO C 00002000 6 UW\n";

/// Some blocks fail.
const FAILS: &str =
    "FAIL S:CNT/0 1 2 4 6\nFAIL S:CNT/1 1 2 3\nFAIL P:0 1 2 3\nFAIL P:1 2\nFAIL X:A/0 1 2\nFAIL X:B/1 1\n";

const BODY: &str = "A A4 00000000 00000001\nB A4 00000000 00000001\nC A4 00000000 00000001\n\
A W4 00002000 00000001\nB W4 00002000 00000001\nC W4 00002200 00000001\nA W4 00002400 00000001\n\
B R4 00002600\nC R4 00002800\nA R4 00000200\nB W4 00000400 00000007\nC R4 00000600\n\
A PURGWS 00002000 3\nB W4 00002A00 00000001\nC DELTVA 00002A00 1\nC CRETVA 00002A00 1 UW\n";

fn trace(alloc: Global, fails: &str, times: u32) -> Result<Vec<u8>, Fail> {
    let mut text = Vec::from_slice(alloc, HEAD.as_bytes())?;
    text.extend_from_slice(fails.as_bytes())?;
    text.extend_from_slice(b"BODY\n")?;
    for _ in 0..times {
        text.extend_from_slice(BODY.as_bytes())?;
    }
    text.extend_from_slice(b"END\n")?;
    Ok(text)
}

#[test]
fn logs_are_legal(rt: HostRuntime) -> Result<(), Fail> {
    let alloc = rt.alloc();
    for (fails, times) in [("", 10), (FAILS, 6)] {
        let mut text = trace(alloc, fails, times)?;
        let (status, log, _) = replay(&rt, alloc, &text)?;
        assert!(rt; status == Status(0) || status == Status(5));
        text.extend_from_slice(b"LOG\n")?;
        text.extend_from_slice(&log)?;
        let (judged, said) = outcome(alloc, &["check"], &text, &[], &[], &[], &[])?;
        assert_eq!(rt; judged, Status(0));
        assert!(rt; said.as_slice().starts_with(b"LOG OK "));
    }
    Ok(())
}
