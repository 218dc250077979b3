//! Transfers that are under way beside each other: a call of a block waits until a call of another block
//! has begun, and fails if it waits in vain.
ghost use Rattle.std.specs.Prelude.{◌≡◌, ◌⊎◌, [], All, IfOk, length};
ghost use Rattle.replay_run.specs.Jobs.{IsPlayable};
ghost use Rattle.thread_tests.specs.Desks.{IsSeated};
ghost use Rattle.vm_actors.specs.Doings.{MayAsk};
ghost use Rattle.vm_state.specs.Based.{base_of};
ghost use Rattle.vm_types.specs.Configuration.{IsTask};

use crate::desks::{Desk, ask, entries, last_desk, swap, write};
use crate::meeting::{Begun, MeetingBlock, MeetingDepot, Side};
use crate::traces::{config_of, task_at, tasks_of};
use history_lock::HistoryLock;
use replay_run::{run_threads, take_last};
use run_blocks::make_blocks;
use seat_turns::Spoken;
use std::alloc::Global;
use std::snapshot::Snapshot;
use std::sync::{Arc, Wait};
use std::test::*;
use std::thread;
use std::thread::Threads;
use vm_journal::{Entry, What};
use vm_state::State;
use vm_types::{BlockId, NoMemory, Reply, SecId, Task};

/// Two processes, each of which reads a page of a section.
const READING: &str =
    "VMTRACE 1\nFRAMES 8\nPAGEFILE 4\nPARAM PFC 1\nSECTION LIB SHARED 2\nDATA LIB 0 05\nDATA LIB 512 06\nPROCESS A 2 2 2 0\nPROCESS B 2 2 2 0\nMAPSEC A 00000000 1 LIB 0 UR\nMAPSEC B 00000000 1 LIB 1 UR\nBODY\nA R1 00000000\nB R1 00000000\n";

/// The first process's references bring one page onto the modified list. The last reference is the second
/// process's, to a page of a section.
const WRITING: &str =
    "VMTRACE 1\nFRAMES 8\nPAGEFILE 4\nPARAM LOLIMIT 0\nSECTION LIB SHARED 2\nDATA LIB 512 06\nPROCESS A 2 2 2 0\nPROCESS B 2 2 2 0\nMAPZERO A 00000000 3 UW\nMAPSEC B 00000000 1 LIB 1 UR\nBODY\nA W1 00000000 01\nA W1 00000200 02\nA W1 00000400 03\nB R1 00000000\n";

/// The first process has one private page, and spoke before the second one did.
const SWAPPING: &str =
    "VMTRACE 1\nFRAMES 8\nPAGEFILE 4\nPARAM FREELIM 8\nPARAM FREEGOAL 8\nSECTION LIB SHARED 2\nDATA LIB 512 06\nPROCESS A 2 2 2 0\nPROCESS B 2 2 2 0\nMAPZERO A 00000000 1 UW\nMAPSEC B 00000000 1 LIB 1 UR\nMAPZERO B 00000200 1 UW\nBODY\nA W1 00000000 01\nB R1 00000200\nB R1 00000000\n";

/// Who writes a page in a run of turns.
#[derive(Clone, Copy, Debug, PartialEq, Eq)]
enum Writer {
    Mpw,
    Swp,
}

/// How many transfers landed well, by reads and writes, and how many badly; and the refusals.
#[derive(Clone, Copy, Debug, PartialEq, Eq)]
struct Landed {
    reads: u32,
    writes: u32,
    failed: u32,
    denied: u32,
}

fn landings_of(entries: &[Entry]) -> Landed {
    let mut landed = Landed {
        reads: 0,
        writes: 0,
        failed: 0,
        denied: 0,
    };
    for entry in entries {
        match entry.what {
            What::InOk { .. } => landed.reads = landed.reads.saturating_add(1),
            What::OutOk { .. } => landed.writes = landed.writes.saturating_add(1),
            What::InFail { .. } | What::OutFail { .. } => {
                landed.failed = landed.failed.saturating_add(1)
            }
            What::Denied { .. } => landed.denied = landed.denied.saturating_add(1),
            _ => {}
        }
    }
    landed
}

// Each of two processes reads a block, and neither read ends before the other one has begun.
#[test]
fn transfers_overlap(rt: HostRuntime) -> Result<(), Fail> {
    let alloc = rt.alloc();
    let config = config_of(alloc, READING)?;
    let mut depot = MeetingDepot::new(alloc, Arc::new(alloc, Begun::new())?);
    let finished = run_threads(&rt, alloc, config, &mut depot)?;
    let both = Landed {
        reads: 2,
        writes: 0,
        failed: 0,
        denied: 0,
    };
    assert_eq!(rt; landings_of(&finished.entries), both);
    for (page, first) in [(0, 5), (1, 6)] {
        let id = BlockId::Section(SecId(0), page);
        assert_eq!(rt; depot.first_byte(id), Some(first));
    }
    Ok(())
}

/// The modified page writer, or the swapper, works once.
fn work<W: Wait>(
    rt: &W,
    lock: &HistoryLock<State<MeetingBlock>>,
    of: &Snapshot<State<MeetingBlock>>,
    mut idle: Desk<MeetingBlock>,
) -> Option<bool>
    requires playable { IsPlayable (base_of of.now.value) }
    requires procs { length of.now.value.config.procs ≡ 2 }
    requires idle { ((idle.carrier.seat).0 ≡ 2) ⊎ ((idle.carrier.seat).0 ≡ 3) }
    requires seated { IsSeated lock.now (base_of of.now.value) idle.pass idle.carrier }
{
    if idle.carrier.seat().0 == 2 {
        write(rt, lock, of, &mut idle).ok()
    } else {
        swap(rt, lock, of, &mut idle).ok()
    }
}

/// Waits until a write has begun, and asks then.
fn ask_late<W: Wait>(
    rt: &W,
    lock: &HistoryLock<State<MeetingBlock>>,
    of: &Snapshot<State<MeetingBlock>>,
    mut desk: Desk<MeetingBlock>,
    task: Task,
    begun: &Begun,
) -> Option<Spoken>
    requires playable { IsPlayable (base_of of.now.value) }
    requires may { MayAsk task.proc task.request of.now.value.config }
    requires seat { (desk.carrier.seat).0 ≡ (task.proc).0 }
    requires seated { IsSeated lock.now (base_of of.now.value) desk.pass desk.carrier }
{
    if !begun.wait(Side::First) {
        return None;
    }
    ask(rt, lock, of, &mut desk, task).ok()
}

/// What two threads answer: one works for no request, and one refers to a page of a section once a write
/// has begun.
fn race<R: Threads + Wait + Sync>(
    rt: &R,
    lock: &HistoryLock<State<MeetingBlock>>,
    of: &Snapshot<State<MeetingBlock>>,
    idle: Desk<MeetingBlock>,
    desk: Desk<MeetingBlock>,
    task: Task,
    begun: &Begun,
) -> (Option<bool>, Option<Spoken>)
    requires playable { IsPlayable (base_of of.now.value) }
    requires procs { length of.now.value.config.procs ≡ 2 }
    requires idle { ((idle.carrier.seat).0 ≡ 2) ⊎ ((idle.carrier.seat).0 ≡ 3) }
    requires idle_seated { IsSeated lock.now (base_of of.now.value) idle.pass idle.carrier }
    requires may { MayAsk task.proc task.request of.now.value.config }
    requires seat { (desk.carrier.seat).0 ≡ (task.proc).0 }
    requires seated { IsSeated lock.now (base_of of.now.value) desk.pass desk.carrier }
{
    thread::join(
        rt,
        move || -> Option<bool>
            requires { IsPlayable (base_of of.now.value) × (length of.now.value.config.procs ≡ 2) × (((idle.carrier.seat).0 ≡ 2) ⊎ ((idle.carrier.seat).0 ≡ 3)) × IsSeated lock.now (base_of of.now.value) idle.pass idle.carrier }
        { work(rt, lock, of, idle) },
        move || -> Option<Spoken>
            requires { IsPlayable (base_of of.now.value) × MayAsk task.proc task.request of.now.value.config × ((desk.carrier.seat).0 ≡ (task.proc).0) × IsSeated lock.now (base_of of.now.value) desk.pass desk.carrier }
        { ask_late(rt, lock, of, desk, task, begun) },
    )
}

/// Asks for the first process what the body begins with, and for the second one up to its last request.
fn ask_first<W: Wait>(
    rt: &W,
    lock: &HistoryLock<State<MeetingBlock>>,
    of: &Snapshot<State<MeetingBlock>>,
    a: &mut Desk<MeetingBlock>,
    b: &mut Desk<MeetingBlock>,
    body: &[Task],
) -> Result<(), NoMemory>
    requires playable { IsPlayable (base_of of.now.value) }
    requires body { All (IsTask of.now.value.config.version (length of.now.value.config.procs)) body.now }
    requires a_seat { (a.old.carrier.seat).0 ≡ 0 }
    requires a_seated { IsSeated lock.now (base_of of.now.value) a.old.pass a.old.carrier }
    requires b_seat { (b.old.carrier.seat).0 ≡ 1 }
    requires b_seated { IsSeated lock.now (base_of of.now.value) b.old.pass b.old.carrier }
    ensures a_seat { (a.new.carrier.seat).0 ≡ 0 }
    ensures a_seated { IsSeated lock.now (base_of of.now.value) a.new.pass a.new.carrier }
    ensures b_seat { (b.new.carrier.seat).0 ≡ 1 }
    ensures b_seated { IsSeated lock.now (base_of of.now.value) b.new.pass b.new.carrier }
{
    for i in 0..body.len() {
        let task = task_at(body, i);
        match task.proc.0 {
            0 => {
                ask(rt, lock, of, a, task)?;
            }
            1 => {
                ask(rt, lock, of, b, task)?;
            }
            _ => {}
        }
    }
    Ok(())
}

/// The swapper's desk, after it has chosen a process to leave, or the modified page writer's.
fn idle_desk<W: Wait>(
    rt: &W,
    lock: &HistoryLock<State<MeetingBlock>>,
    of: &Snapshot<State<MeetingBlock>>,
    writer: Writer,
    mpw: Desk<MeetingBlock>,
    mut swp: Desk<MeetingBlock>,
) -> Result<Desk<MeetingBlock>, NoMemory>
    requires playable { IsPlayable (base_of of.now.value) }
    requires procs { length of.now.value.config.procs ≡ 2 }
    requires mpw_seat { (mpw.carrier.seat).0 ≡ 2 }
    requires mpw_seated { IsSeated lock.now (base_of of.now.value) mpw.pass mpw.carrier }
    requires swp_seat { (swp.carrier.seat).0 ≡ 3 }
    requires swp_seated { IsSeated lock.now (base_of of.now.value) swp.pass swp.carrier }
    ensures idle { IfOk result (λ desk. ((desk.carrier.seat).0 ≡ 2) ⊎ ((desk.carrier.seat).0 ≡ 3)) }
    ensures seated { IfOk result (λ desk. IsSeated lock.now (base_of of.now.value) desk.pass desk.carrier) }
{
    match writer {
        Writer::Mpw => Ok(mpw),
        Writer::Swp => {
            swap(rt, lock, of, &mut swp)?;
            Ok(swp)
        }
    }
}

/// How transfers land on a state of two processes, where a page is written, and another one is read once
/// that write has begun: the last request of the body refers to it.
fn landed_on<R: Threads + Wait + Sync>(
    rt: &R,
    alloc: Global,
    state: State<MeetingBlock>,
    body: &[Task],
    last: Task,
    writer: Writer,
    begun: &Begun,
) -> Result<Landed, Fail>
    requires playable { IsPlayable (base_of state) }
    requires first { state.past ≡ [] }
    requires two_processes { length state.config.procs ≡ 2 }
    requires body { All (IsTask state.config.version 2) body.now }
    requires last { IsTask state.config.version 2 last }
    requires last_of { (last.proc).0 ≡ 1 }
{
    let of = Snapshot::of(&state);
    let (lock, mut passes) = HistoryLock::new(alloc, state, 4)?;
    let swp = last_desk(alloc, &lock, &of, &mut passes)?;
    let mpw = last_desk(alloc, &lock, &of, &mut passes)?;
    let mut b = last_desk(alloc, &lock, &of, &mut passes)?;
    let mut a = last_desk(alloc, &lock, &of, &mut passes)?;
    ask_first(rt, &lock, &of, &mut a, &mut b, body)?;
    let idle = idle_desk(rt, &lock, &of, writer, mpw, swp)?;
    let (made, spoken) = race(rt, &lock, &of, idle, b, last, begun);
    if made != Some(true) || spoken != Some(Spoken::Reply(Reply::Value(6))) {
        return Err(Fail::from("both answer"));
    }
    Ok(landings_of(&entries(rt, alloc, &lock, &of, &mut a)?))
}

/// How transfers land on a trace's state, as above.
fn landed_beside<R: Threads + Wait + Sync>(
    rt: &R,
    alloc: Global,
    trace: &str,
    writer: Writer,
) -> Result<Landed, Fail> {
    let begun = Arc::new(alloc, Begun::new())?;
    let mut depot = MeetingDepot::new(alloc, begun.clone()?);
    let config = config_of(alloc, trace)?;
    let mut body = tasks_of(alloc, &config.body)?;
    if config.procs.items().len() != 2 || body.is_empty() {
        return Err(Fail::from("two processes with a request"));
    }
    let last = take_last(&mut body);
    if last.proc.0 != 1 {
        return Err(Fail::from("the second process's request"));
    }
    let blocks = make_blocks(alloc, &config, &mut depot)?;
    let state = State::start(alloc, config, blocks)?;
    landed_on(rt, alloc, state, &body, last, writer, &begun)
}

// A page is written, by the modified page writer or by the swapper, and another one is read: neither
// transfer ends before the other one has begun.
#[test]
fn turns_overlap(rt: HostRuntime) -> Result<(), Fail> {
    let both = Landed {
        reads: 1,
        writes: 1,
        failed: 0,
        denied: 0,
    };
    for (trace, writer) in [(WRITING, Writer::Mpw), (SWAPPING, Writer::Swp)] {
        let landed = landed_beside(&rt, rt.alloc(), trace, writer)?;
        assert_eq!(rt; landed, both, "{writer:?}");
    }
    Ok(())
}
