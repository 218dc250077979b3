use disk_trait::MemoryDepot;
use outside_io::{MemorySink, MemorySource};
use program_call::{EnvArguments, ListedArguments, run_and_explain, run_bytes};
use replay_cli::{CallEnds, Status};
use std::alloc::Global;
use std::sync::Wait;
use std::test::Fail;
use std::thread::Threads;
use vm_types::NoMemory;

const TRACE: &[u8] = b"VMTRACE 1\nFRAMES 8\nPAGEFILE 4\nPROCESS A 4 4 4 0\nBODY\nEND\n";

const TEXT: &[u8] = b"PFN AT 0\n\
FREE 8 MODIFIED 0 BAD 0 RELEASE 0 READERROR 0 WRITING 0 READING 0 ACTIVE 0\n\
PAGEFILE 4 CHARGED 0 ASSIGNED 0\n\
PROCESS A RESIDENT COUNT 0 LIMIT 4\n\
STATUS 0\n";

// What the program answers and writes, if the output's calls of these numbers fail.
fn outcome<R: Threads + Wait + Sync>(
    rt: &R,
    alloc: Global,
    words: &[&[u8]],
    fails: &[u32],
) -> Result<(Status, Vec<u8>), NoMemory> {
    let mut arguments = ListedArguments::new(words);
    let fails = Vec::from_slice(alloc, fails)?;
    let mut ends = CallEnds {
        source: MemorySource::new(Vec::from_slice(alloc, TRACE)?, Vec::new(alloc)),
        output: MemorySink::new(alloc, 1000, fails, Vec::new(alloc))?,
        depot: MemoryDepot::new(alloc, Vec::new(alloc)),
    };
    let mut messages = MemorySink::new(alloc, 2000, Vec::new(alloc), Vec::new(alloc))?;
    let status = run_and_explain(rt, alloc, &mut arguments, &mut ends, &mut messages);
    Ok((status, Vec::from_slice(alloc, ends.output.taken())?))
}

// The words, the failing calls of the output, the status and the text. Five lines are five writes,
// and the sixth call is the flush.
#[test]
fn runs_the_words(rt: HostRuntime) -> Result<(), Fail> {
    let cut = b"PFN AT 0\n".as_slice();
    let usage = b"STATUS 1\n".as_slice();
    let table: [(&[&[u8]], &[u32], u8, &[u8]); 9] = [
        (&[b"neqysbar", b"serial"], &[], 0, TEXT),
        (&[b"\xFF\xFE", b"serial"], &[], 0, TEXT),
        (&[b"neqysbar", b"serial", b"x"], &[], 1, usage),
        (&[b"neqysbar", b"serial", b"\xFF"], &[], 1, usage),
        (&[b"neqysbar", b"replay"], &[], 0, TEXT),
        (&[b"neqysbar", b"replay", b"x"], &[], 1, usage),
        (&[], &[], 1, usage),
        (&[b"neqysbar", b"serial"], &[6], 4, TEXT),
        (&[b"neqysbar", b"serial"], &[2], 4, cut),
    ];
    for (words, fails, status, text) in table {
        let told = outcome(&rt, rt.alloc(), words, fails)?;
        assert_eq!(rt; told.0, Status(status));
        assert_eq!(rt; told.1.as_slice(), text);
    }
    Ok(())
}

#[test]
fn runs_bytes(rt: HostRuntime) -> Result<(), Fail> {
    let told = run_bytes(rt.alloc(), &["serial"], TRACE)?;
    assert_eq!(rt; told.0, Status(0));
    assert_eq!(rt; told.1.as_slice(), TEXT);
    Ok(())
}

// The test's own command line has no word that is a command.
#[test]
fn takes_the_words_of_the_process(rt: HostRuntime) -> Result<(), Fail> {
    let alloc = rt.alloc();
    let mut arguments = EnvArguments::new(&rt);
    let mut ends = CallEnds {
        source: MemorySource::new(Vec::from_slice(alloc, TRACE)?, Vec::new(alloc)),
        output: MemorySink::new(alloc, 1000, Vec::new(alloc), Vec::new(alloc))?,
        depot: MemoryDepot::new(alloc, Vec::new(alloc)),
    };
    let mut messages = MemorySink::new(alloc, 2000, Vec::new(alloc), Vec::new(alloc))?;
    let status = run_and_explain(&rt, alloc, &mut arguments, &mut ends, &mut messages);
    assert_eq!(rt; status, Status(1));
    Ok(())
}

// The words, the trace, the status and the message.
#[test]
fn explains(rt: HostRuntime) -> Result<(), Fail> {
    let alloc = rt.alloc();
    let name = b"neqysbar".as_slice();
    let command = b"serial".as_slice();
    let usage =
        b"neqysbar: no command\nneqysbar 1.0.0\nusage: neqysbar serial < TRACE\n           reads a trace and runs it; writes each entry, a report, the pages left dirty and the status\n       neqysbar replay < TRACE\n           reads a trace and runs it with a thread for each process, the writer and the swapper; writes what\n           serial writes, of one legal run\n       neqysbar study --process X --frames K < TRACE\n           reads a trace; writes what the references of process X, A to P, cost with K page frames, 1 to 1024\n       neqysbar make --seed N --procs P --refs R\n           reads nothing; makes a trace from the seed N, 0 to 4294967295, with P processes, 1 to 16, and R\n           references, 1 to 100000, and runs it; writes how many entries of each kind the run has\n       neqysbar check < TRACE-AND-LOG\n           reads a trace, a line LOG and a log; writes whether the log is legal, or its first line that isn't\n       neqysbar dump < TRACE > FILE\n           reads a trace and runs it up to the report; writes the dump of the page database there, in bytes\n       neqysbar show < FILE\n           reads a dump; writes what it holds, and each count in it that a recount doesn't give\nexample: neqysbar study --process A --frames 8 < examples/swapping.trace\n".as_slice();
    let table: [(&[&[u8]], &[u8], u8, &[u8]); 13] = [
        (&[name, command], b"", 2, b"neqysbar: the input is empty\n"),
        (
            &[name, b"study", b"--process=B", b"--frames=1"],
            TRACE,
            0,
            b"neqysbar: the trace doesn't declare the process that --process names, so it has no references\n",
        ),
        (
            &[name, b"show"],
            b"VMSDUMP1",
            2,
            b"neqysbar: the first 8 bytes begin a dump; the next one is wrong, or is missing\n",
        ),
        (&[name, command], TRACE, 0, b""),
        (&[name], TRACE, 1, usage),
        (
            &[name, command],
            b"VMTRACE 1\n! a remark\nFRAMES\x01 8\nFRAMES 8\n",
            2,
            b"neqysbar: line 3: the line has a byte that is neither a blank, a tab nor a printable character\n    FRAMES\\x01 8\n",
        ),
        (
            &[name, command],
            b"VMTRACE 1\nFRAMES 8\n",
            2,
            b"neqysbar: the input ends before the line END of its trace, or before the line LOG that check reads behind END\n",
        ),
        (
            &[name, command],
            b"VMTRACE 3",
            2,
            b"neqysbar: line 1: the number is from 1 to 2\n    VMTRACE 3\n            ^\n",
        ),
        (
            &[name, command],
            b"LONGTRACE 3",
            2,
            b"neqysbar: line 1: the number is 2\n    LONGTRACE 3\n              ^\n",
        ),
        (
            &[name, b"check"],
            b"VMTRACE 1\nFRAMES 7\n",
            2,
            b"neqysbar: line 2: the number is from 8 to 4096, and in version 2 to 16384\n    FRAMES 7\n           ^\n",
        ),
        (
            &[name, command],
            b"VMTRACE 1\nFRAMES 4097\n",
            2,
            b"neqysbar: line 2: the number is from 8 to 4096, and in version 2 to 16384\n    FRAMES 4097\n           ^\n",
        ),
        (
            &[name, command],
            b"VMTRACE 2\nFRAMES 16385\n",
            2,
            b"neqysbar: line 2: the number is from 8 to 16384\n    FRAMES 16385\n           ^\n",
        ),
        (
            &[name, b"check"],
            b"VMTRACE 1\nFRAMES 8\nPAGEFILE 4\nPROCESS A 4 4 4 0\nBODY\nEND\nLOG\nPFN AT 0\nFREE 7\n",
            8,
            b"neqysbar: log line 2: FREE 7: the line that comes here is FREE 8 MODIFIED 0 BAD 0 RELEASE 0 READERROR 0 WRITING 0 READING 0 ACTIVE 0\n",
        ),
    ];
    for (words, trace, status, message) in table {
        let mut arguments = ListedArguments::new(words);
        let mut ends = CallEnds {
            source: MemorySource::new(Vec::from_slice(alloc, trace)?, Vec::new(alloc)),
            output: MemorySink::new(alloc, 1000, Vec::new(alloc), Vec::new(alloc))?,
            depot: MemoryDepot::new(alloc, Vec::new(alloc)),
        };
        let mut messages = MemorySink::new(alloc, 2000, Vec::new(alloc), Vec::new(alloc))?;
        let ended = run_and_explain(&rt, alloc, &mut arguments, &mut ends, &mut messages);
        assert_eq!(rt; ended, Status(status));
        assert_eq!(rt; messages.taken(), message);
    }
    Ok(())
}
