ghost use Rattle.std.specs.Prelude.{None};

use arrayvec::ArrayVec;
use outside_io::{MemorySource, Source};
use std::alloc::{AllocError, Global};
use std::process::Abort;
use std::test::Fail;
use trace_reader::{
    Breach, Cause, TraceFault, a_shown_fault_stays, read_trace, what_is_read_is_well_formed,
};
use vm_types::{
    Addr, BlockId, Failed, Mapping, Mode, Op, Origin, Params, Proc, ProcSpec, Ref, Request, SecId,
    SectionKind, Service, Task, Width,
};

// The machine.
const MACHINE: &[u8] = b"VMTRACE 1\nFRAMES 8\nPAGEFILE 1\n";

// The machine and one process.
const HEAD: &[u8] = b"VMTRACE 1\nFRAMES 8\nPAGEFILE 4\nPROCESS A 4 4 4 0\n";

// A source that gives one byte at a call, and fails at one call, counted from 1.
#[derive(Drop)]
struct Drip {
    bytes: Vec<u8>,
    calls: usize,
    fails: usize,
    faults: u64,
}

impl Source for Drip {
    ghost seen = { λ s. record { left = None; failures = s.faults } };

    fn read(&mut self, buf: &mut [u8]) -> Result<usize, Failed> {
        self.calls = self.calls.saturating_add(1);
        if self.calls == self.fails {
            self.faults = self.faults.saturating_add(1);
            return Err(Failed);
        }
        if buf.is_empty() || self.calls > self.bytes.len() {
            return Ok(0);
        }
        buf[0] = self.bytes[self.calls - 1];
        Ok(1)
    }
}

fn dripping(bytes: Vec<u8>, fails: usize) -> Drip {
    Drip {
        bytes,
        calls: 0,
        fails,
        faults: 0,
    }
}

fn joined(alloc: Global, head: &[u8], tail: &[u8]) -> Result<Vec<u8>, AllocError> {
    let mut text = head.to_vec(alloc)?;
    text.extend_from_slice(tail)?;
    Ok(text)
}

// From the first line on.
const HEADERS: &[u8] = b"\
R VMTRACE 0\n\
R VMTRACE 3\n\
R LONGTRACE 1\n\
R LONGTRACE 3\n\
P LONGTRACE\n\
P FRAMES 8\n\
U VMTRACE 1;LONGTRACE 2\n\
U VMTRACE 2;LONGTRACE 2\n\
U LONGTRACE 2;LONGTRACE 2\n\
P VMTRACE 1;VMTRACE 1\n\
P LONGTRACE 2;VMTRACE 2\n\
R LONGTRACE 2;FRAMES 16385\n\
. LONGTRACE 2;FRAMES 16384\n\
R VMTRACE 1;FRAMES 7\n\
R VMTRACE 1;FRAMES 4097\n\
R VMTRACE 1;FRAMES 4096;PAGEFILE 0\n\
R VMTRACE 2;FRAMES 7\n\
R VMTRACE 2;FRAMES 16385\n\
. VMTRACE 2;FRAMES 16384\n\
R VMTRACE 2;FRAMES 16384;PAGEFILE 0\n\
R VMTRACE 1;FRAMES 8;PAGEFILE 16385\n\
P VMTRACE 1;FRAMES 8;PAGEFILE 16384;END\n\
N VMTRACE 1;!\rx\n\
N VMTRACE 1;!\r\r\n\
P VMTRACE\r\n\
U a\n\
P A\n\
";

// Behind three lines that give the machine.
const LISTS: &[u8] = b"\
P BODY\n\
D BAD 1;BAD 1\n\
D PARAM PFC 1;PARAM PFC 2\n\
D FAIL P:0 1;FAIL P:0 2\n\
R PROCESS A 2 2 7 0;BODY\n\
R PROCESS A 2 2 6 0;BAD 1;BODY\n\
R PROCESS A 2 2 6 0;PARAM LOLIMIT 129;BODY\n\
R PROCESS A 2 2 6 0;PARAM FREELIM 1;BODY\n\
D PROCESS A 2 2 6 0;MAPZERO A 0 3 UW;MAPZERO A 400 1 UW\n\
R SECTION AB CRF 1;DATA AB 511 0000\n\
R PROCESS A 2 2 6 0;PARAM WAITLIMIT 127;BODY\n\
S SECTION AB CRF 1;FAIL S:AB/1 1\n\
R SECTION AB CRF 1;PROCESS A 2 2 6 0;MAPSEC A 0 1 AB 1 UW\n\
R SECTION AB CRF 1;PROCESS A 2 2 6 0;MAPSEC A 0 2 AB 0 UW\n\
";

// Three lines that give a machine of version 2.
const SECOND_MACHINE: &[u8] = b"VMTRACE 2\nFRAMES 8\nPAGEFILE 4\n";

// The same in the long form.
const LONG_MACHINE: &[u8] = b"LONGTRACE 2\nFRAMES 8\nPAGEFILE 4\n";

// Behind them.
const OF_VERSION_TWO: &[u8] = b"\
. SECTION LIB PAGED 1\n\
T SECTION LIB PAGED 16385\n\
U SECTION LIB PAGE 1\n\
S SECTION LIB PAGED 1;DATA LIB 0 00\n\
S SECTION LIB PAGED 1;FAIL S:LIB/0 1\n\
. PROCESS A 4 4 4 1;PROCESS B 4 4 4 1;BODY\n\
R PROCESS A 4 4 4 1;PROCESS B 4 4 4 2;BODY\n\
. PROCESS A 4 4 4 1;BODY;A LCKPAG 0 1\n\
. PROCESS A 4 4 4 1;BODY;A ULKPAG 0 1\n\
R PROCESS A 4 4 4 1;BODY;A LCKPAG 0 0\n\
P PROCESS A 4 4 4 1;BODY;A LCKPAG 0\n\
S PROCESS A 4 4 4 1;BODY;B LCKPAG 0 1\n\
";

// The least and the greatest value of each parameter, and one above it.
const PARAMETERS: &[u8] = b"\
. PARAM PFC 1;PARAM HILIMIT 0;PARAM LOLIMIT 0;PARAM WAITLIMIT 1;PARAM WRTCLUSTER 1;PARAM FREELIM 0;PARAM FREEGOAL 0;PARAM AWSTIME 0;PARAM PFRATH 0;PARAM PFRATL 0;PARAM WSINC 0;PARAM WSDEC 0;PARAM AWSMIN 2;PARAM BORROWLIM 0\n\
. PARAM PFC 8;PARAM HILIMIT 16384;PARAM LOLIMIT 16384;PARAM WAITLIMIT 16384;PARAM WRTCLUSTER 16;PARAM FREELIM 4096;PARAM FREEGOAL 4096;PARAM AWSTIME 100000;PARAM PFRATH 100000;PARAM PFRATL 100000;PARAM WSINC 1024;PARAM WSDEC 1024;PARAM AWSMIN 1024;PARAM BORROWLIM 4096\n\
R PARAM PFC 9\n\
R PARAM HILIMIT 16385\n\
R PARAM LOLIMIT 16385\n\
R PARAM WAITLIMIT 16385\n\
R PARAM WRTCLUSTER 17\n\
R PARAM FREELIM 4097\n\
R PARAM FREEGOAL 4097\n\
R PARAM AWSTIME 100001\n\
R PARAM PFRATH 100001\n\
R PARAM PFRATL 100001\n\
R PARAM WSINC 1025\n\
R PARAM WSDEC 1025\n\
R PARAM AWSMIN 1025\n\
R PARAM BORROWLIM 4097\n\
";

// Behind one process.
const DECLARATIONS: &[u8] = b"\
R PARAM PFC 0\n\
R PARAM WAITLIMIT 0\n\
R PARAM WRTCLUSTER 0\n\
R PARAM AWSMIN 1\n\
U PARAM pfc 1\n\
P PARAM PFC\n\
. BAD 7\n\
R BAD 8\n\
B BAD 12345678901\n\
R BAD 4294967296\n\
. SECTION A1 CRF 16384\n\
T SECTION A1 CRF 16385\n\
R SECTION A1 CRF 0\n\
U SECTION A CRF 1\n\
. SECTION ABCDEFGHIJKLMNO CRF 1\n\
U SECTION ABCDEFGHIJKLMNOP CRF 1\n\
U SECTION 1A CRF 1\n\
U SECTION LIB PAGED 1\n\
S DATA LIB 0 00\n\
. PROCESS B 2 2 2 0\n\
R PROCESS B 2 2 2 1\n\
R PROCESS B 3 2 3 0\n\
R PROCESS B 2 3 2 0\n\
R PROCESS B 2 2 1025 x\n\
B PROCESS B 2 2 1024 x\n\
P PROCESS A 2 2 2 0\n\
P PROCESS C 2 2 2 0\n\
U PROCESS b 2 2 2 0\n\
. MAPZERO A 001FFE00 1 UW\n\
R MAPZERO A 001FFE00 2 UW\n\
. MAPZERO A 0 4096 UW\n\
R MAPZERO A 0 4097 UW\n\
. MAPZERO A 7FF80000 1024 UW\n\
R MAPZERO A 7FF7FE00 1 UW\n\
R MAPZERO A 7FFFFE00 2 UW\n\
A MAPZERO A 90000001 1 UW\n\
B MAPZERO A 000000000 1 UW\n\
U MAPZERO A 0 1 KE\n\
S MAPZERO B 0 1 UW\n\
S MAPSEC A 0 1 LIB 0 UW\n\
. FAIL P:3 1\n\
S FAIL P:4 1\n\
U FAIL P:03 1\n\
. FAIL X:A/3 1 1 1 1 1 1 1 1 1 1 1 1 1 1 1 1\n\
P FAIL X:A/3 1 1 1 1 1 1 1 1 1 1 1 1 1 1 1 1 1\n\
S FAIL X:A/4 1\n\
R FAIL P:3 0\n\
P FAIL P:3\n\
U UW\n\
P A R1 0\n\
";

// Behind the line BODY.
const REQUESTS: &[u8] = b"\
. A UR1 FFFFFFFF\n\
. A SW2 2 ffff\n\
R A W2 2 10000\n\
R A W1 0 100\n\
B A W4 0 100000000\n\
A A R2 1\n\
A A A4 2 0\n\
P A R1\n\
P A R1 0 0\n\
P A W1 0\n\
P A\n\
U A R0 0\n\
S B R0 0\n\
P Z R1\n\
S Z R1 0\n\
U a R1 0\n\
. A CRETVA 0 1 UW\n\
P A CRETVA 0 1\n\
A A DELTVA 00000100 1\n\
U A SETPRT 0 1 XX\n\
R A LKWSET 0 0\n\
R A ULWSET 0 4097\n\
R A PURGWS 001FFE00 2\n\
U A LCKPAG 0 1\n\
U A ULKPAG 0\n\
S B LCKPAG 0 1\n\
. A ADJWSL 4294967295\n\
R A ADJWSL 4294967296\n\
P MAPZERO A 0 1 UW\n\
P END;A R1 0\n\
";

// The answer to a text, read at once; it is the same byte by byte.
fn fault(rt: &impl Abort, alloc: Global, text: &[u8]) -> Result<Option<TraceFault>, AllocError> {
    let mut pieces = dripping(text.to_vec(alloc)?, 0);
    let mut kept = ArrayVec::new();
    let slow = read_trace(alloc, &mut pieces, &mut kept).err();
    let mut source = MemorySource::new(text.to_vec(alloc)?, Vec::new(alloc));
    let mut front = ArrayVec::new();
    let fast = read_trace(alloc, &mut source, &mut front).err();
    assert_eq!(rt; fast, slow);
    assert_eq!(rt; front.as_slice(), kept.as_slice());
    Ok(fast)
}

// The line and the rule, without the word.
fn rule(fault: Option<TraceFault>) -> Option<TraceFault> {
    match fault {
        Some(TraceFault::Line(n, breach)) => line(n, breach.cause),
        other => other,
    }
}

fn line(n: u32, cause: Cause) -> Option<TraceFault> {
    Some(TraceFault::Line(n, Breach::at_word(0, cause)))
}

// The cause of this letter.
fn cause_of(letter: u8) -> Option<Cause> {
    match letter {
        b'N' => Some(Cause::NotAscii),
        b'T' => Some(Cause::TooMany),
        b'U' => Some(Cause::UnknownWord),
        b'P' => Some(Cause::Misplaced),
        b'S' => Some(Cause::NoSuch),
        b'B' => Some(Cause::BadNumber),
        b'R' => Some(Cause::OutOfRange),
        b'A' => Some(Cause::Unaligned),
        b'D' => Some(Cause::Repeated),
        _ => None,
    }
}

// Each row of the table has the letter of a cause, a blank, and lines with `;` between them that stand
// behind the head, from this number on. The last of them is at fault, or no line is.
fn judges(
    rt: &impl Abort,
    alloc: Global,
    head: &[u8],
    first: u32,
    table: &[u8],
) -> Result<(), AllocError> {
    for row in table.split(|b| *b == b'\n') {
        let [letter, _, lines @ ..] = row else {
            continue;
        };
        let mut text = head.to_vec(alloc)?;
        let mut number = first;
        for byte in lines {
            if *byte == b';' {
                number = number.saturating_add(1);
                text.push(b'\n')?;
            } else {
                text.push(*byte)?;
            }
        }
        let answer = match cause_of(*letter) {
            Some(cause) => line(number, cause),
            None => Some(TraceFault::Unfinished),
        };
        assert_eq!(rt; rule(fault(rt, alloc, text.as_slice())?), answer);
    }
    Ok(())
}

// The number of the word that is wrong, a blank, and lines with `;` between them behind the machine and
// one process, of which the last is at fault.
const WORDS: &[u8] = b"\
1 FRAME 8\n\
1 A R1 0\n\
2 PARAM PFD 9\n\
3 PARAM PFC 9\n\
3 PARAM PFC\n\
4 PARAM PFC 1 1\n\
2 PARAM PFC 1;PARAM PFC 1\n\
2 BAD 8\n\
2 SECTION A CRF 1\n\
3 SECTION LIB SHARE 1\n\
4 SECTION LIB CRF 0\n\
3 SECTION LIB CRF 1;DATA LIB 512 00\n\
4 SECTION LIB CRF 1;DATA LIB 0 0\n\
2 PROCESS C 4 4 4 0\n\
4 PROCESS B 4 3 4 0\n\
5 PROCESS B 4 4 3 0\n\
6 PROCESS B 4 4 4 3\n\
2 MAPZERO B 0 1 UW\n\
3 MAPZERO A 1 1 UW\n\
3 MAPZERO A 00200000 1 UW\n\
4 MAPZERO A 0 4097 UW\n\
5 MAPZERO A 0 1 RW\n\
6 MAPZERO A 0 1 UW UW\n\
6 SECTION LIB CRF 1;MAPSEC A 0 1 LIB 1 UW\n\
2 FAIL P:4 1\n\
3 FAIL P:3\n\
5 FAIL P:3 1 2 0\n\
1 PARAM HILIMIT 500;BODY\n\
2 BODY 1\n\
1 BODY;B R1 0\n\
2 BODY;A\n\
2 BODY;A R8 0\n\
3 BODY;A R1\n\
3 BODY;A R2 1\n\
4 BODY;A W1 0 1FF\n\
5 BODY;A W1 0 1 1\n\
4 BODY;A PURGWS 0 0\n\
3 BODY;A ADJWSL -1\n\
2 BODY;END 1\n\
1 BODY;END;END\n\
";

#[test]
fn names_the_word_that_is_wrong(rt: HostRuntime) -> Result<(), Fail> {
    let alloc = rt.alloc();
    for row in WORDS.split(|b| *b == b'\n') {
        let [digit, _, lines @ ..] = row else {
            continue;
        };
        let mut text = HEAD.to_vec(alloc)?;
        for byte in lines {
            text.push(if *byte == b';' { b'\n' } else { *byte })?;
        }
        let word = match fault(&rt, alloc, text.as_slice())? {
            Some(TraceFault::Line(_, breach)) => breach.word,
            _ => 0,
        };
        assert_eq!(rt; b'0'.saturating_add(word), *digit);
    }
    assert_eq!(rt; fault(&rt, alloc, b"")?, Some(TraceFault::Empty));
    Ok(())
}

#[test]
fn judges_each_kind_of_line(rt: HostRuntime) -> Result<(), Fail> {
    let alloc = rt.alloc();
    judges(&rt, alloc, b"", 1, HEADERS)?;
    judges(&rt, alloc, MACHINE, 4, LISTS)?;
    judges(&rt, alloc, SECOND_MACHINE, 4, OF_VERSION_TWO)?;
    judges(&rt, alloc, LONG_MACHINE, 4, OF_VERSION_TWO)?;
    judges(&rt, alloc, HEAD, 5, PARAMETERS)?;
    judges(&rt, alloc, HEAD, 5, DECLARATIONS)?;
    let head = joined(alloc, HEAD, b"BODY\n")?;
    judges(&rt, alloc, head.as_slice(), 6, REQUESTS)?;
    Ok(())
}

const WHOLE: &[u8] =
    b"! a comment\n\r\n \t\nVMTRACE 01\r\n\tFRAMES\t 40 \nPAGEFILE 16\nPARAM PFC 8\n\
BAD 39\nSECTION LIB SHARED 2\nDATA LIB 0511 0aFF\nPROCESS A 4 8 16 1\n\
MAPSEC A 7ffffe00 1 LIB 1 UW\nFAIL S:LIB/1 3 1 3\n\
BODY\nA KR2 00000200\nA A4 7FFFFFFC 000000ff\n! another\nA CRETVA 00001000 3 NA\nEND\n\n!";

fn referred(mode: Mode, at: u32, op: Op) -> Task {
    Task {
        proc: Proc(0),
        request: Request::Reference(Ref {
            mode,
            addr: Addr(at),
            op,
        }),
    }
}

#[test]
fn reads_a_whole_trace(rt: HostRuntime) -> Result<(), Fail> {
    let alloc = rt.alloc();
    let mut source = MemorySource::new(WHOLE.to_vec(alloc)?, Vec::new(alloc));
    let mut kept = ArrayVec::new();
    let config = read_trace(alloc, &mut source, &mut kept)
        .ok()
        .ok_or("a trace")?;
    assert!(rt; config.frames == 40 && config.pagefile == 16);
    assert_eq!(rt; config.bad.items(), [39].as_slice());
    let params = Params {
        pfc: 8,
        hilimit: 128,
        lolimit: 32,
        waitlimit: 256,
        wrtcluster: 8,
        freelim: 0,
        freegoal: 0,
        awstime: 0,
        pfrath: 16,
        pfratl: 2,
        wsinc: 8,
        wsdec: 4,
        awsmin: 4,
        borrowlim: 16,
    };
    assert_eq!(rt; config.params, params);
    let sections = config.sections.items();
    assert_eq!(rt; sections.len(), 1);
    let bytes = sections[0].bytes.items();
    assert_eq!(rt; sections[0].name.items(), b"LIB".as_slice());
    assert!(rt; sections[0].kind == SectionKind::Shared && bytes.len() == 1024);
    assert!(rt; bytes[510] == 0 && bytes[511] == 0x0a && bytes[512] == 0xff && bytes[513] == 0);
    let spec = ProcSpec {
        limit: 4,
        quota: 8,
        extent: 16,
        locks: 1,
    };
    assert_eq!(rt; config.procs.items(), [spec].as_slice());
    let map = Mapping {
        proc: Proc(0),
        at: Addr(0x7fff_fe00),
        pages: 1,
        from: Origin::Section(SecId(0), 1),
        prot: 4,
    };
    assert_eq!(rt; config.maps.items(), [map].as_slice());
    let fails = config.fails.items();
    assert_eq!(rt; fails.len(), 1);
    assert!(rt; fails[0].block == BlockId::Section(SecId(0), 1));
    assert_eq!(rt; fails[0].calls.items(), [3, 1, 3].as_slice());
    let (at, pages, prot) = (Addr(0x1000), 3, 0);
    let body = [
        referred(Mode::K, 0x200, Op::Read(Width::Two)),
        referred(Mode::U, 0x7fff_fffc, Op::Add(0xff)),
        Task {
            proc: Proc(0),
            request: Request::Service(Service::Create { at, pages, prot }),
        },
    ];
    assert_eq!(rt; config.body.len(), body.len());
    for i in 0..body.len() {
        assert_eq!(rt; config.body.get(i), Some(body[i]));
    }
    Ok(())
}

// The most sections, section pages and processes, and the longest line.
#[test]
fn counts_sections_processes_and_bytes(rt: HostRuntime) -> Result<(), Fail> {
    let alloc = rt.alloc();
    let mut text = joined(alloc, MACHINE, b"")?;
    for n in 0..16u8 {
        text.extend_from_slice(b"PROCESS ")?;
        text.push(b'A' + n)?;
        text.extend_from_slice(b" 2 2 2 0\n")?;
    }
    judges(&rt, alloc, text.as_slice(), 20, b"T PROCESS Q 2 2 2 0\n")?;
    for n in 0..64u8 {
        text.extend_from_slice(b"SECTION A")?;
        text.push(b'0' + n / 10)?;
        text.push(b'0' + n % 10)?;
        text.extend_from_slice(b" CRF 1\n")?;
    }
    judges(&rt, alloc, text.as_slice(), 84, b"T SECTION LIB CRF 1\n")?;
    let pages =
        b". SECTION A1 CRF 16383;SECTION A2 CRF 1\nT SECTION A1 CRF 16383;SECTION A2 CRF 2\n";
    judges(&rt, alloc, MACHINE, 4, pages)?;
    let full = joined(alloc, &[b'!'; 254], b"\r\n!")?;
    assert_eq!(rt;
        fault(&rt, alloc, full.as_slice())?,
        Some(TraceFault::Unfinished)
    );
    let long = joined(alloc, &[b'!'; 255], b"\r\n")?;
    assert_eq!(rt;
        fault(&rt, alloc, long.as_slice())?,
        line(1, Cause::LineTooLong)
    );
    Ok(())
}

#[test]
fn answers_in_the_order_of_the_bytes(rt: HostRuntime) -> Result<(), Fail> {
    let alloc = rt.alloc();
    let long = [b'x'; 300];
    let failed = Some(TraceFault::ReadFault);
    // The text, the call of a source of single bytes that fails, and the answer.
    let table: [(&[u8], usize, Option<TraceFault>); 6] = [
        (HEAD, 1, failed),
        (HEAD, HEAD.len() + 1, failed),
        (b"FRAMES 8\n", 9, failed),
        (b"FRAMES 8\n", 10, line(1, Cause::Misplaced)),
        (&long, 256, failed),
        (&long, 257, line(1, Cause::LineTooLong)),
    ];
    for (text, fails, answer) in table {
        let mut source = dripping(text.to_vec(alloc)?, fails);
        let mut kept = ArrayVec::new();
        assert_eq!(rt;
            rule(read_trace(alloc, &mut source, &mut kept).err()),
            answer
        );
    }
    what_is_read_is_well_formed();
    a_shown_fault_stays();
    Ok(())
}

// Each read of single bytes fails in turn, and that of the end; the call after it isn't come to.
#[test]
fn each_read_fails_in_turn(rt: HostRuntime) -> Result<(), Fail> {
    let alloc = rt.alloc();
    let after = WHOLE.len().saturating_add(2);
    for fails in 1..after {
        let mut source = dripping(WHOLE.to_vec(alloc)?, fails);
        let answer = read_trace(alloc, &mut source, &mut ArrayVec::new()).err();
        assert_eq!(rt; answer, Some(TraceFault::ReadFault));
    }
    let mut source = dripping(WHOLE.to_vec(alloc)?, after);
    let answer = read_trace(alloc, &mut source, &mut ArrayVec::new());
    assert!(rt; answer.is_ok());
    Ok(())
}

// The most lines and the most requests that a trace may have.
#[test]
fn counts_lines_and_requests(rt: HostRuntime) -> Result<(), Fail> {
    let alloc = rt.alloc();
    let mut text = joined(alloc, HEAD, b"BODY\n")?;
    for _ in 0..100_000 {
        text.extend_from_slice(b"A R1 0\n")?;
    }
    let full = joined(alloc, text.as_slice(), b"A R1 0")?;
    let mut source = MemorySource::new(full, Vec::new(alloc));
    let mut kept = ArrayVec::new();
    let answer = read_trace(alloc, &mut source, &mut kept).err();
    assert_eq!(rt; kept.as_slice(), b"A R1 0".as_slice());
    assert_eq!(rt; rule(answer), line(100_006, Cause::TooMany));
    for _ in 0..99_995 {
        text.extend_from_slice(b"\n")?;
    }
    text.extend_from_slice(b"!")?;
    let mut source = MemorySource::new(text, Vec::new(alloc));
    let answer = read_trace(alloc, &mut source, &mut kept).err();
    assert_eq!(rt; kept.as_slice(), b"!".as_slice());
    assert_eq!(rt; rule(answer), line(200_001, Cause::TooMany));
    Ok(())
}

// A long trace may have more of both.
#[test]
fn reads_a_long_trace(rt: HostRuntime) -> Result<(), Fail> {
    let alloc = rt.alloc();
    let mut text = joined(alloc, LONG_MACHINE, b"PROCESS A 4 4 4 0\nBODY\n")?;
    for _ in 0..100_001 {
        text.extend_from_slice(b"A R1 0\n!\n")?;
    }
    text.extend_from_slice(b"END\n")?;
    let mut source = MemorySource::new(text, Vec::new(alloc));
    let config = read_trace(alloc, &mut source, &mut ArrayVec::new())
        .ok()
        .ok_or("a trace")?;
    assert_eq!(rt; config.body.len(), 100_001);
    assert!(rt; config.version.is_long() && !config.version.is_first());
    Ok(())
}
