ghost use Rattle.std.specs.Prelude.{◌≡◌, IfOk};
ghost use Rattle.text_tests.specs.TestRun.{test_config, test_report};

use crate::params::PARAMS;
use command_ends::Status;
use outside_io::MemorySink;
use run_text::{FrameRow, ProcessRow, Report, print_run};
use std::alloc::Global;
use std::test::Fail;
use vm_journal::{Entry, Role, What};
use vm_types::{
    Addr, BlockId, Body, Config, FrameState, Listed, Mapping, Mode, NoMemory, Op, Origin, Page,
    Pfn, Proc, ProcSpec, ProcStatus, Ref, Reply, Seat, SecId, Section, SectionKind, Version, Width,
};

/// A process that has the one page of a shared section at 0.
fn config(alloc: Global) -> Result<Config, NoMemory>
    ensures { IfOk result (λ config. config ≡ test_config) }
{
    let section = Section {
        name: Listed::of(vec![in alloc; b'S', b'H']?),
        kind: SectionKind::Shared,
        bytes: Listed::of(Vec::from_slice(alloc, &[7; 512])?),
    };
    let spec = ProcSpec {
        limit: 4,
        quota: 4,
        extent: 4,
        locks: 0,
    };
    let mapping = Mapping {
        proc: Proc(0),
        at: Addr(0),
        pages: 1,
        from: Origin::Section(SecId(0), 0),
        prot: 4,
    };
    Ok(Config {
        version: Version::One,
        frames: 8,
        bad: Listed::new(alloc),
        pagefile: 4,
        params: PARAMS,
        sections: Listed::of(vec![in alloc; section]?),
        procs: Listed::of(vec![in alloc; spec]?),
        maps: Listed::of(vec![in alloc; mapping]?),
        fails: Listed::new(alloc),
        body: Body::new(alloc),
    })
}

/// The page is read from its block, and then written.
const ENTRIES: [Entry; 3] = [
    Entry {
        seat: Seat(0),
        what: What::In {
            f: Pfn(0),
            block: BlockId::Section(SecId(0), 0),
            role: Role::Fault(Proc(0), Addr(0)),
        },
    },
    Entry {
        seat: Seat(0),
        what: What::InOk { f: Pfn(0), k: 1 },
    },
    Entry {
        seat: Seat(0),
        what: What::Done {
            r: Ref {
                mode: Mode::U,
                addr: Addr(0),
                op: Op::Write(Width::Four, 42),
            },
            reply: Reply::Written,
        },
    },
];

/// The report before the page is written.
fn report(alloc: Global) -> Result<Report, NoMemory>
    ensures { IfOk result (λ report. report ≡ test_report) }
{
    let held = FrameRow {
        state: FrameState::Active,
        page: Some(Page::Shared(SecId(0), 0)),
        modify: false,
        refs: 1,
        shares: 1,
    };
    let free = FrameRow {
        state: FrameState::Free,
        page: None,
        modify: false,
        refs: 0,
        shares: 0,
    };
    let process = ProcessRow {
        status: ProcStatus::Resident,
        count: 1,
        limit: 4,
    };
    Ok(Report {
        at: 2,
        states: Listed::of(vec![in alloc; 7, 0, 0, 0, 0, 0, 0, 1]?),
        frames: Listed::of(vec![in alloc; held, free, free, free, free, free, free, free]?),
        size: 4,
        charged: 0,
        assigned: 0,
        processes: Listed::of(vec![in alloc; process]?),
    })
}

const TEXT: &str = "1 A IN F0 S:SH/0 FAULT A/00000000\n\
2 A INOK F0 1\n\
PFN AT 2\n\
FREE 7 MODIFIED 0 BAD 0 RELEASE 0 READERROR 0 WRITING 0 READING 0 ACTIVE 1\n\
FRAME 0 ACTIVE SH/0 MODIFY 0 REFS 1 SHARES 1\n\
PAGEFILE 4 CHARGED 0 ASSIGNED 0\n\
PROCESS A RESIDENT COUNT 1 LIMIT 4\n\
3 A DONE W4 00000000 0000002A\n\
DIRTY SH/0\n\
STATUS 5\n";

/// Prints the run into a sink with this room.
fn print_into(alloc: Global, room: u32) -> Result<(Status, MemorySink), NoMemory> {
    let config = config(alloc)?;
    let report = report(alloc)?;
    let mut sink = MemorySink::new(alloc, room, Vec::new(alloc), Vec::new(alloc))?;
    let dirty = [Page::Shared(SecId(0), 0)];
    let status = print_run(&config, &ENTRIES, 2, &report, &dirty, &mut sink);
    Ok((status, sink))
}

// The room of a sink, and the status: all of the text goes into the first two.
#[test]
fn prints_a_run_as_far_as_there_is_room(rt: HostRuntime) -> Result<(), Fail> {
    let table = [
        (1000, 5),
        (294, 5),
        (0, 4),
        (1, 4),
        (34, 4),
        (60, 4),
        (293, 4),
    ];
    for (room, expected) in table {
        let (status, sink) = print_into(rt.alloc(), room)?;
        let taken = TEXT.len().min(room as usize);
        assert_eq!(rt; status, Status(expected), "room {room}");
        assert_eq!(rt; sink.taken(), &TEXT.as_bytes()[..taken]);
    }
    Ok(())
}
