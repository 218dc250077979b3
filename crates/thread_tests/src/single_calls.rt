//! One call of each kind at the lock: of a state that was halted it makes no entry, and answers that there is
//! no memory.
ghost use Rattle.std.specs.Prelude.{◌≡◌, [], All, length};
ghost use Rattle.replay_run.specs.Jobs.{IsPlayable};
ghost use Rattle.vm_state.specs.Based.{base_of};
ghost use Rattle.vm_types.specs.Configuration.{IsTask};

use crate::desks::{ask, entries, last_desk, swap, write};
use crate::traces::{config_of, task_at, tasks_of};
use disk_trait::{Block, MemoryDepot};
use history_lock::HistoryLock;
use run_blocks::make_blocks;
use seat_turns::Spoken;
use std::alloc::Global;
use std::snapshot::Snapshot;
use std::sync::Wait;
use std::test::*;
use vm_state::State;
use vm_types::{Answer, NoMemory, Reply, Task};

/// A reference, and a deletion.
const ASKING: &str =
    "VMTRACE 1\nFRAMES 8\nPAGEFILE 4\nPROCESS A 4 4 4 0\nMAPZERO A 00000000 4 UW\nBODY\nA W1 00000000 07\nA DELTVA 00000000 1\n";

/// What four calls answer, the process's two requests, the modified page writer's work and the swapper's;
/// and how many entries there are after them.
#[derive(Clone, Copy, Debug, PartialEq, Eq)]
struct Told {
    referred: Result<Spoken, NoMemory>,
    served: Result<Spoken, NoMemory>,
    wrote: Result<bool, NoMemory>,
    swapped: Result<bool, NoMemory>,
    made: usize,
}

/// What the four calls answer on a state of one process.
fn answers_of<W: Wait, B: Block>(
    rt: &W,
    alloc: Global,
    state: State<B>,
    body: &[Task],
) -> Result<Told, Fail>
    requires playable { IsPlayable (base_of state) }
    requires first { state.past ≡ [] }
    requires one_process { length state.config.procs ≡ 1 }
    requires body { All (IsTask state.config.version 1) body.now }
    requires count { length body.now ≡ 2 }
{
    let of = Snapshot::of(&state);
    let (lock, mut passes) = HistoryLock::new(alloc, state, 3)?;
    let mut swp = last_desk(alloc, &lock, &of, &mut passes)?;
    let mut mpw = last_desk(alloc, &lock, &of, &mut passes)?;
    let mut a = last_desk(alloc, &lock, &of, &mut passes)?;
    let referred = ask(rt, &lock, &of, &mut a, task_at(body, 0));
    let served = ask(rt, &lock, &of, &mut a, task_at(body, 1));
    let wrote = write(rt, &lock, &of, &mut mpw);
    let swapped = swap(rt, &lock, &of, &mut swp);
    let made = entries(rt, alloc, &lock, &of, &mut a)?.len();
    Ok(Told {
        referred,
        served,
        wrote,
        swapped,
        made,
    })
}

/// What the four calls answer on the trace's state, which was halted before or not.
fn answers_on_trace<W: Wait>(rt: &W, alloc: Global, halted: bool) -> Result<Told, Fail> {
    let config = config_of(alloc, ASKING)?;
    let body = tasks_of(alloc, &config.body)?;
    if config.procs.items().len() != 1 || body.len() != 2 {
        return Err(Fail::from("a process with two requests"));
    }
    let mut depot = MemoryDepot::new(alloc, Vec::new(alloc));
    let blocks = make_blocks(alloc, &config, &mut depot)?;
    let mut state = State::start(alloc, config, blocks)?;
    if halted {
        state.halt();
    }
    answers_of(rt, alloc, state, &body)
}

// A first write, a deletion, and nothing to write or to swap.
#[test]
fn each_call_answers(rt: HostRuntime) -> Result<(), Fail> {
    let all = Told {
        referred: Ok(Spoken::Reply(Reply::Written)),
        served: Ok(Spoken::Answer(Answer::Good)),
        wrote: Ok(false),
        swapped: Ok(false),
        made: 4,
    };
    assert_eq!(rt; answers_on_trace(&rt, rt.alloc(), false)?, all);
    Ok(())
}

// No call makes an entry on a halted state, and each answers that there is no memory.
#[test]
fn halted_states_answer_no_memory(rt: HostRuntime) -> Result<(), Fail> {
    let none = Told {
        referred: Err(NoMemory),
        served: Err(NoMemory),
        wrote: Err(NoMemory),
        swapped: Err(NoMemory),
        made: 0,
    };
    assert_eq!(rt; answers_on_trace(&rt, rt.alloc(), true)?, none);
    Ok(())
}
