//! Racing runs of traces, and what must come out of them on every schedule.
ghost use Rattle.std.specs.Prelude.{IfOk};
ghost use Rattle.vm_types.specs.Configuration.{IsWellFormed};

use crate::traces::repeated;
use disk_trait::MemoryDepot;
use replay_run::run_threads;
use std::alloc::Global;
use std::sync::Wait;
use std::test::*;
use std::thread::Threads;
use vm_journal::{Entry, What};
use vm_types::{BlockId, Config, Op, Reply, SecId};

/// Four processes that share a page.
const SHARING: &str =
    "VMTRACE 1\nFRAMES 64\nPAGEFILE 4\nSECTION CNT SHARED 1\nPROCESS A 4 4 4 0\nPROCESS B 4 4 4 0\nPROCESS C 4 4 4 0\nPROCESS D 4 4 4 0\nMAPSEC A 00000000 1 CNT 0 UW\nMAPSEC B 00000000 1 CNT 0 UW\nMAPSEC C 00000000 1 CNT 0 UW\nMAPSEC D 00000000 1 CNT 0 UW\nBODY\n";

/// Each process adds one to the first longword of the section.
const ADDS: &str =
    "A A4 00000000 00000001\nB A4 00000000 00000001\nC A4 00000000 00000001\nD A4 00000000 00000001\n";

/// Three processes that have too few frames for their shared and private pages.
const TIGHT: &str =
    "VMTRACE 1\nFRAMES 8\nPAGEFILE 20\nSECTION CNT SHARED 4\nPROCESS A 2 4 6 0\nPROCESS B 2 4 6 0\nPROCESS C 2 4 6 0\nMAPSEC A 00000000 4 CNT 0 UW\nMAPSEC B 00000000 4 CNT 0 UW\nMAPSEC C 00000000 4 CNT 0 UW\nMAPZERO A 00002000 6 UW\nMAPZERO B 00002000 6 UW\nMAPZERO C 00002000 6 UW\n";

/// Adds to shared pages, private pages of which most aren't in memory, and services.
const MIXED: &str =
    "A A4 00000000 00000001\nB A4 00000000 00000001\nC A4 00000000 00000001\nA W4 00002000 00000001\nB W4 00002000 00000001\nC W4 00002200 00000001\nA W4 00002400 00000001\nB R4 00002600\nC R4 00002800\nA R4 00000200\nB W4 00000400 00000007\nC R4 00000600\nA PURGWS 00002000 3\nB W4 00002A00 00000001\nC DELTVA 00002A00 1\nC CRETVA 00002A00 1 UW\n";

/// Some blocks fail, the section's first ones among them.
const SOME_FAIL: &str =
    "FAIL S:CNT/0 1 2 4 6\nFAIL S:CNT/1 1 2 3\nFAIL P:0 1 2 3\nFAIL P:1 2\nFAIL X:A/0 1 2\nFAIL X:B/1 1\n";

/// How many blocks of each kind the three processes have.
const KINDS: [(&str, u32); 5] = [
    ("S:CNT/", 4),
    ("P:", 20),
    ("X:A/", 6),
    ("X:B/", 6),
    ("X:C/", 6),
];

/// Lines by which each block fails at one of its first four calls.
fn all_fail(alloc: Global) -> Result<String, Fail> {
    let mut lines = String::new(alloc);
    for (name, count) in KINDS {
        for n in 0..count {
            let line = format!(in alloc; "FAIL {name}{n} {}\n", 1 + n % 4)?;
            lines.push_str(&line)?;
        }
    }
    Ok(lines)
}

/// The configuration of the three processes, some of whose blocks fail by these lines.
fn tight(alloc: Global, fails: &str, times: u32) -> Result<Config, Fail>
    ensures { IfOk result IsWellFormed }
{
    let head = format!(in alloc; "{TIGHT}{fails}BODY\n")?;
    repeated(alloc, &head, MIXED, times)
}

/// What a run left: the section's first bytes, how many shared pages were dirty, how many requests were
/// answered, and whether the old values of the adds that were done are 0, 1, 2 and so on.
#[derive(Clone, Copy, Debug, PartialEq, Eq)]
struct Left {
    first: [u8; 4],
    dirty: usize,
    answered: usize,
    in_order: bool,
}

/// How many requests were answered, and whether the old values of the adds are 0, 1, 2 and so on.
fn answers(entries: &[Entry]) -> (usize, bool) {
    let mut answered = 0usize;
    let mut next = 0u32;
    let mut in_order = true;
    for entry in entries {
        match entry.what {
            What::Done { r, reply } => {
                answered = answered.saturating_add(1);
                if matches!(r.op, Op::Add(_)) {
                    in_order = in_order && reply == Reply::Old(next);
                    next = next.saturating_add(1);
                }
            }
            What::Denied { .. } | What::Served { .. } => answered = answered.saturating_add(1),
            _ => {}
        }
    }
    (answered, in_order)
}

/// Runs a configuration by threads.
fn run<R: Threads + Wait + Sync>(rt: &R, alloc: Global, config: Config) -> Result<Left, Fail>
    requires { IsWellFormed config }
{
    let mut depot = MemoryDepot::new(alloc, Vec::new(alloc));
    let finished = run_threads(rt, alloc, config, &mut depot)?;
    let mut first = [0; 4];
    if let Some(block) = depot.retired(BlockId::Section(SecId(0), 0)) {
        first.copy_from_slice(&block.bytes()[..4]);
    }
    let (answered, in_order) = answers(&finished.entries);
    Ok(Left {
        first,
        dirty: finished.dirty.len(),
        answered,
        in_order,
    })
}

// Each add is done once, and finds what the ones before it left, whichever way the threads run.
#[test]
fn adds_are_counted(rt: HostRuntime) -> Result<(), Fail> {
    let config = repeated(rt.alloc(), SHARING, ADDS, 100)?;
    let all = Left {
        first: [0x90, 1, 0, 0],
        dirty: 0,
        answered: 400,
        in_order: true,
    };
    assert_eq!(rt; run(&rt, rt.alloc(), config)?, all);
    Ok(())
}

// Pages of three processes are replaced, written, swapped, purged and deleted beside each other.
#[test]
fn mixed_runs_lose_nothing(rt: HostRuntime) -> Result<(), Fail> {
    let all = Left {
        first: [90, 0, 0, 0],
        dirty: 0,
        answered: 480,
        in_order: true,
    };
    for _ in 0..2 {
        let config = tight(rt.alloc(), "", 30)?;
        assert_eq!(rt; run(&rt, rt.alloc(), config)?, all);
    }
    Ok(())
}

// Runs end where some blocks fail, and where each block fails at one of its first four calls, and each
// request is answered. An add that is refused changes nothing.
#[test]
fn failing_runs_end(rt: HostRuntime) -> Result<(), Fail> {
    let all = all_fail(rt.alloc())?;
    for fails in [SOME_FAIL, all.as_str()] {
        let config = tight(rt.alloc(), fails, 20)?;
        let left = run(&rt, rt.alloc(), config)?;
        assert_eq!(rt; (left.answered, left.in_order), (320, true));
    }
    Ok(())
}
