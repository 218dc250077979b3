use arrayvec::ArrayVec;
use command_ends::Wrong;
use command_messages::{LineFault, explain, quoted_fault};
use outside_io::MemorySink;
use std::test::Fail;
use trace_reader::{Bound, Breach, Cause, Limited};

// The words of a faulty command line, and what is said before usage.
#[test]
fn says_what_is_wrong_with_a_command_line(rt: HostRuntime) -> Result<(), Fail> {
    let alloc = rt.alloc();
    let serial = "neqysbar: serial takes its trace from standard input: serial < FILE\n";
    let replay = "neqysbar: replay takes its trace from standard input: replay < FILE\n";
    let check = "neqysbar: check takes its trace and its log from standard input: check < FILE\n";
    let study = "neqysbar: study takes --process X and --frames K, each once, and no other word\n";
    let make =
        "neqysbar: make takes --seed N, --procs P and --refs R, each once, and no other word\n";
    let table: [(&[&str], &str); 17] = [
        (&[], "neqysbar: no command\n"),
        (&["seriel"], "neqysbar: no such command: seriel\n"),
        (
            &["sér\tial"],
            "neqysbar: no such command: s\\xC3\\xA9r ial\n",
        ),
        (&["serial", "first-run.trace"], serial),
        (&["replay", "first-run.trace"], replay),
        (&["check", "x"], check),
        (
            &["study"],
            "neqysbar: --process is missing: study takes --process X and --frames K, each once, and no other word\n",
        ),
        (
            &["study", "--process=A"],
            "neqysbar: --frames is missing: study takes --process X and --frames K, each once, and no other word\n",
        ),
        (
            &["study", "--process", "a", "--frames=8"],
            "neqysbar: --process is A to P\n",
        ),
        (
            &["study", "--process=A", "--frames", "2000"],
            "neqysbar: --frames is 1 to 1024\n",
        ),
        (
            &["study", "--process=A", "--frames"],
            "neqysbar: --frames is 1 to 1024\n",
        ),
        (&["study", "--process=A", "--frames=8", "x"], study),
        (
            &["make", "--seed=-1"],
            "neqysbar: --seed is 0 to 4294967295\n",
        ),
        (
            &["make", "--seed=1", "--procs=17"],
            "neqysbar: --procs is 1 to 16\n",
        ),
        (
            &["make", "--seed=1", "--procs=16"],
            "neqysbar: --refs is missing: make takes --seed N, --procs P and --refs R, each once, and no other word\n",
        ),
        (
            &["make", "--refs=0", "--seed=1", "--procs=2"],
            "neqysbar: --refs is 1 to 100000\n",
        ),
        (
            &["make", "--refs=1", "--seed=1", "--procs=2", "--help"],
            make,
        ),
    ];
    for (words, line) in table {
        let mut kept = ArrayVec::new();
        let fault = quoted_fault(words, &mut kept);
        let mut messages = MemorySink::new(alloc, 2000, Vec::new(alloc), Vec::new(alloc))?;
        explain(1, None, Some(fault), &kept, &mut messages);
        assert!(rt; messages.taken().starts_with(line.as_bytes()));
        assert!(rt;
            messages
                .taken()
                .ends_with(b"--frames 8 < examples/swapping.trace\n")
        );
    }
    let mut messages = MemorySink::new(alloc, 2000, Vec::new(alloc), Vec::new(alloc))?;
    explain(
        1,
        None,
        Some(LineFault::NotText),
        &ArrayVec::new(),
        &mut messages,
    );
    assert!(rt;
        messages
            .taken()
            .starts_with(b"neqysbar: a word isn't UTF-8\nneqysbar 1.0.0\n")
    );
    Ok(())
}

// The number of a faulty line, its first bytes, and the message.
#[test]
fn says_what_stands_in_the_place_of_a_trace(rt: HostRuntime) -> Result<(), Fail> {
    let alloc = rt.alloc();
    let table: [(u32, &[u8], &str); 8] = [
        (
            1,
            b"\xEF\xBB\xBFVMTRACE 1\r",
            "neqysbar: line 1: a byte order mark stands in front of the trace, which is plain ASCII\n    \\xEF\\xBB\\xBFVMTRACE 1\n",
        ),
        (
            1,
            b"\xFF\xFEV\x00",
            "neqysbar: line 1: the input begins as UTF-16 does, and a trace is plain ASCII\n    \\xFF\\xFEV\\x00\n",
        ),
        (
            1,
            b"1 A ZERO 00000000 F0",
            "neqysbar: line 1: the input begins as a log does, and a trace begins with VMTRACE\n    1 A ZERO 00000000 F0\n",
        ),
        (
            1,
            b"PFN AT 0",
            "neqysbar: line 1: the input begins as a log does, and a trace begins with VMTRACE\n    PFN AT 0\n",
        ),
        (
            1,
            b"VMSDUMP1\x00",
            "neqysbar: line 1: the input begins as a dump does, and a trace begins with VMTRACE\n    VMSDUMP1\\x00\n",
        ),
        (
            1,
            b"\x7FELF",
            "neqysbar: line 1: the line has a byte that is neither a blank, a tab nor a printable character\n    \\x7FELF\n",
        ),
        (
            2,
            b"1 \xEF",
            "neqysbar: line 2: the line has a byte that is neither a blank, a tab nor a printable character\n    1 \\xEF\n",
        ),
        (
            3,
            b"LOG",
            "neqysbar: line 3: LOG stands behind the line END, and check alone reads it\n    LOG\n",
        ),
    ];
    for (number, bytes, message) in table {
        let mut kept = ArrayVec::new();
        kept.try_extend_from_slice(bytes)?;
        let mut messages = MemorySink::new(alloc, 2000, Vec::new(alloc), Vec::new(alloc))?;
        let wrong = Wrong::Line(number, Breach::at_word(0, Cause::NotAscii));
        explain(2, Some(wrong), None, &kept, &mut messages);
        assert_eq!(rt; messages.taken(), message.as_bytes());
    }
    Ok(())
}

// The word that is wrong, what may stand there, and the message behind the number of the line.
#[test]
fn marks_the_word_that_is_wrong(rt: HostRuntime) -> Result<(), Fail> {
    let alloc = rt.alloc();
    let table: [(u8, Cause, Bound, &[u8], &str); 18] = [
        (
            1,
            Cause::OutOfRange,
            Bound::HiLimit(256),
            b"BODY",
            "WAITLIMIT is 256, so HILIMIT is at most 256; without lines PARAM they are 256 and 128\n    BODY\n    ^\n",
        ),
        (
            1,
            Cause::OutOfRange,
            Bound::FramesAndLocks(16_384),
            b"BODY",
            "FRAMES is 16384, so the greatest extent, the bad frames, the locks of all processes and 2 are together at most 16384\n    BODY\n    ^\n",
        ),
        (
            3,
            Cause::OutOfRange,
            Bound::Within(1, 8),
            b"PARAM PFC 32\r",
            "the number is from 1 to 8\n    PARAM PFC 32\n              ^\n",
        ),
        (
            2,
            Cause::UnknownWord,
            Bound::Free,
            b"\tPARAM  PFD 9",
            "a parameter is PFC, HILIMIT, LOLIMIT, WAITLIMIT, WRTCLUSTER, FREELIM, FREEGOAL, AWSTIME, PFRATH, PFRATL, WSINC, WSDEC, AWSMIN or BORROWLIM\n     PARAM  PFD 9\n            ^\n",
        ),
        (
            2,
            Cause::Misplaced,
            Bound::Free,
            b"FRAMES",
            "the line has too many or too few words: its form is FRAMES n\n    FRAMES\n          ^\n",
        ),
        (
            1,
            Cause::Misplaced,
            Bound::Free,
            b"FRAMES 8",
            "the line doesn't belong here: FRAMES is next behind VMTRACE or LONGTRACE, and there is one\n    FRAMES 8\n    ^\n",
        ),
        (
            2,
            Cause::Misplaced,
            Bound::Next(1),
            b"PROCESS C 4 4 4 0",
            "the next process is B: they are declared in the order of their letters\n    PROCESS C 4 4 4 0\n            ^\n",
        ),
        (
            3,
            Cause::Unaligned,
            Bound::Multiple(512),
            b"MAPZERO A 1 1 UW",
            "the address is a multiple of 512, which is 200 in hexadecimal digits\n    MAPZERO A 1 1 UW\n              ^\n",
        ),
        (
            6,
            Cause::OutOfRange,
            Bound::Pages(1),
            b"MAPSEC A 0 1 LIB 1 UW",
            "the first page is 1, and has to be below the section's number of pages, which is 1\n    MAPSEC A 0 1 LIB 1 UW\n                     ^\n",
        ),
        (
            6,
            Cause::OutOfRange,
            Bound::Locks(4),
            b"PROCESS A 4 4 4 3",
            "the number of locks is 3, and has to be at most the limit less 2, which is 2\n    PROCESS A 4 4 4 3\n                    ^\n",
        ),
        (
            6,
            Cause::OutOfRange,
            Bound::Locks(1),
            b"PROCESS A 1 4 4 0",
            "the limit is 1, and has to be at least 2\n    PROCESS A 1 4 4 0\n              ^\n",
        ),
        (
            6,
            Cause::OutOfRange,
            Bound::Pages(1),
            b"MAPSEC A 0 2 LIB 0 UW",
            "the number of pages is 2, and has to be at most what the section has from there on, which is 1\n    MAPSEC A 0 2 LIB 0 UW\n               ^\n",
        ),
        (
            3,
            Cause::UnknownWord,
            Bound::Free,
            b"SECTION LIB PAGED 1",
            "version 1 doesn't have this word, and version 2 does: VMTRACE 2 or LONGTRACE 2\n    SECTION LIB PAGED 1\n                ^\n",
        ),
        (
            4,
            Cause::OutOfRange,
            Bound::Within(0, 65_535),
            b"A W2 00000000 1FFFF",
            "the value has 1 to 8 hexadecimal digits, and is from 0 to FFFF\n    A W2 00000000 1FFFF\n                  ^\n",
        ),
        (
            3,
            Cause::Misplaced,
            Bound::Free,
            b"A CRETVA",
            "the line has too many or too few words: its form is x CRETVA address n protection\n    A CRETVA\n            ^\n",
        ),
        (
            1,
            Cause::TooMany,
            Bound::Most(Limited::Requests, 8_000_000),
            b"A R4 00000000",
            "a trace of this version has at most 8000000 requests\n    A R4 00000000\n    ^\n",
        ),
        (
            4,
            Cause::TooMany,
            Bound::Most(Limited::SectionPages, 16_384),
            b"SECTION LIB SHARED 16385",
            "a trace has at most 16384 pages of sections\n    SECTION LIB SHARED 16385\n                       ^\n",
        ),
        (
            0,
            Cause::LineTooLong,
            Bound::Free,
            b"!",
            "the line has more than 255 bytes\n    !\n",
        ),
    ];
    for (word, cause, bound, bytes, message) in table {
        let mut kept = ArrayVec::new();
        kept.try_extend_from_slice(bytes)?;
        let mut messages = MemorySink::new(alloc, 2000, Vec::new(alloc), Vec::new(alloc))?;
        let wrong = Wrong::Line(5, Breach::bounded(word, cause, bound));
        explain(2, Some(wrong), None, &kept, &mut messages);
        assert!(rt; messages.taken().starts_with(b"neqysbar: line 5: "));
        assert!(rt; messages.taken().ends_with(message.as_bytes()));
    }
    let mut messages = MemorySink::new(alloc, 2000, Vec::new(alloc), Vec::new(alloc))?;
    explain(2, Some(Wrong::Empty), None, &ArrayVec::new(), &mut messages);
    assert_eq!(rt;
        messages.taken(),
        b"neqysbar: the input is empty\n".as_slice()
    );
    Ok(())
}
