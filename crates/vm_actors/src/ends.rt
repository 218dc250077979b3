ghost use Rattle.std.specs.Prelude.{◌≡◌, ◌||◌, IfSome, None};
ghost use Rattle.seat_turns.specs.Steps.{is_reads};
ghost use Rattle.seat_turns.specs.declared.turned.Turned.{Turned};
ghost use Rattle.vm_actors.specs.Ends.{IsEnd, IsIdleEnd, may_carry};

use seat_turns::{Spoken, Turned};
use vm_types::NoMemory;

/// Whether transfers may have been begun in a turn.
pub(crate) fn may_carry(turned: Turned) -> bool
    ensures { result ≡ may_carry turned }
{
    matches!(turned, Turned::Reads | Turned::Made)
}

/// Whether reads of the reference's own page were begun.
pub(crate) fn reads(turned: Turned) -> bool
    ensures { result ≡ is_reads turned }
{
    matches!(turned, Turned::Reads)
}

/// How a request's call ends with a turn, if it does.
pub(crate) fn end_of(turned: Turned) -> Option<Result<Spoken, NoMemory>>
    ensures ends { IfSome result (IsEnd turned) }
    ensures none { result ≡ None → (shown : _) → turned ≡ Turned.Spoke shown → ⊥ }
{
    match turned {
        Turned::Spoke(shown) => Some(Ok(shown)),
        Turned::Short => Some(Err(NoMemory)),
        _ => None,
    }
}

/// How the writer's or swapper's call ends with a turn, if it does; `made` says whether it has made an
/// entry.
pub(crate) fn idle_end_of(turned: Turned, made: bool) -> Option<Result<bool, NoMemory>>
    ensures { IfSome result (IsIdleEnd made turned) }
{
    match turned {
        Turned::Rests => Some(Ok(made)),
        Turned::Short => Some(Err(NoMemory)),
        _ => None,
    }
}

/// Whether an entry was made in one of two turns.
pub(crate) fn either(first: bool, second: bool) -> bool
    ensures { result ≡ (first || second) }
{
    first || second
}
