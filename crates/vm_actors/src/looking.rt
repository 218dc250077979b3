ghost use Rattle.std.specs.Prelude.{◌≡◌, ◌≤◌, length, true};
ghost use Rattle.pager_model.specs.Spoken.{spoken};
ghost use Rattle.history_lock.specs.Passes.{IsIdle, IsOf, IsSameLock, base_of as base_seen, numbers, seen};
ghost use Rattle.vm_actors.specs.Between.{NoneOpen};
ghost use Rattle.vm_actors.specs.Doings.{Knows};
ghost use Rattle.vm_actors.specs.OwnEntries.{MadeNone};
ghost use Rattle.vm_actors.specs.Requests.{AreAllAnswered};
ghost use Rattle.vm_types.specs.declared.config.Config.{Config};

use disk_trait::Block;
use history_lock::{HistoryLock, Pass};
use std::sync::Wait;
use vm_state::State;

/// Whether as many requests were answered as the configuration has.
fn are_answered<B: Block>(state: &State<B>) -> bool
    ensures { result ≡ true → length state.now.config.body ≤ spoken state.now.past }
{
    state.all_answered() >= state.config().body.len() as u64
}

/// Looks in a turn whether as many requests were answered as the configuration has.
pub(crate) fn look_answered<W: Wait, B: Block>(
    rt: &W,
    lock: &HistoryLock<State<B>>,
    pass: &mut Pass<State<B>>,
) -> bool
    requires own { IsOf lock.now pass.old }
    requires idle { IsIdle pass.old }
    requires knows { Knows (λ (c : Config). Unit {0}) (base_seen pass.old) }
    requires landed { NoneOpen (numbers pass.old) (seen pass.old) }
    ensures idle { IsIdle pass.new }
    ensures numbers { numbers pass.new ≡ numbers pass.old }
    ensures base { base_seen pass.new ≡ base_seen pass.old }
    ensures same { IsSameLock pass.old pass.new }
    ensures none { MadeNone (numbers pass.old) (seen pass.old) (seen pass.new) }
    ensures landed { NoneOpen (numbers pass.old) (seen pass.new) }
    ensures answered { result ≡ true → AreAllAnswered (base_seen pass.old) (seen pass.new) }
{
    let turn = lock.enter(rt, pass);
    let state = turn.value();
    state.run_law();
    let all = are_answered(state);
    lock.leave(pass, turn);
    all
}
