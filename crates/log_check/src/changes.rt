//! The pager's state goes on with an entry.

ghost use Rattle.std.specs.Prelude.{◌≡◌, true, OnOk};
ghost use Rattle.vm_journal.specs.declared.entry.What.TheVariants.{InOk, OutFail, OutOk, Reuse};
ghost use Rattle.pager_model.specs.Flights.{open_flights};
ghost use Rattle.pager_model.specs.Step.{after_what};
ghost use Rattle.shadow_pager.specs.Shown.{shown, with_pager};
ghost use Rattle.log_check.specs.Changing.{AreNamedThere, is_own};

use shadow_history::{Direction, ShadowHistory};
use shadow_pager::ShadowPager;
use vm_journal::What;
use vm_types::{NoMemory, Page, Pfn, Proc, Seat};

/// The read that began in the entry of this number lands well.
fn read_lands(
    pager: &mut ShadowPager,
    past: &ShadowHistory<'_>,
    f: Pfn,
    k: u64,
) -> Result<(), NoMemory>
    requires { AreNamedThere past.now.config (shown pager.old) (open_flights past.now.past) 0 (InOk f k) }
    ensures { OnOk result (shown pager.new ≡ with_pager (shown pager.old)
        (after_what past.now.config past.now.past (shown pager.old).pager 0 (InOk f k))) }
{
    let Some(x) = past.flight(k) else {
        return Ok(());
    };
    match x.direction() {
        Direction::Reading(role) => pager.read_lands(f, x.block(), role),
        Direction::Writing => Ok(()),
    }
}

/// The write that began in the entry of this number lands well.
fn write_lands(
    pager: &mut ShadowPager,
    past: &ShadowHistory<'_>,
    f: Pfn,
    k: u64,
) -> Result<(), NoMemory>
    requires { AreNamedThere past.now.config (shown pager.old) (open_flights past.now.past) 0 (OutOk f k) }
    ensures { OnOk result (shown pager.new ≡ with_pager (shown pager.old)
        (after_what past.now.config past.now.past (shown pager.old).pager 0 (OutOk f k))) }
{
    match past.flight(k) {
        Some(x) => pager.write_lands(f, x.block()),
        None => Ok(()),
    }
}

/// The write that began in the entry of this number, which is open, lands badly.
fn write_fails(
    pager: &mut ShadowPager,
    past: &ShadowHistory<'_>,
    f: Pfn,
    k: u64,
    c: u64,
    d: u64,
) -> Result<(), NoMemory>
    requires { AreNamedThere past.now.config (shown pager.old) (open_flights past.now.past) 0 (OutFail f k c d) }
    ensures { OnOk result (shown pager.new ≡ with_pager (shown pager.old)
        (after_what past.now.config past.now.past (shown pager.old).pager 0 (OutFail f k c d))) }
{
    match past.flight(k) {
        Some(x) => pager.write_fails(f, x.block()),
        None => Ok(()),
    }
}

/// A frame gives up a page.
fn reuse(
    pager: &mut ShadowPager,
    past: &ShadowHistory<'_>,
    f: Pfn,
    page: Page,
) -> Result<(), NoMemory>
    requires { AreNamedThere past.now.config (shown pager.old) (open_flights past.now.past) 0 (Reuse f page) }
    ensures { OnOk result (shown pager.new ≡ with_pager (shown pager.old)
        (after_what past.now.config past.now.past (shown pager.old).pager 0 (Reuse f page))) }
{
    match past.failed() {
        Some(x) => pager.reuse(f, page, Some(x.block())),
        None => pager.reuse(f, page, None),
    }
}

/// An entry of a process's seat about the process itself.
fn change_own(
    pager: &mut ShadowPager,
    past: &ShadowHistory<'_>,
    own: Proc,
    what: What,
) -> Result<(), NoMemory>
    requires can { AreNamedThere past.now.config (shown pager.old) (open_flights past.now.past) own.0 what }
    ensures { OnOk result (is_own what ≡ true → shown pager.new ≡ with_pager (shown pager.old)
        (after_what past.now.config past.now.past (shown pager.old).pager own.0 what)) }
{
    match what {
        What::Done { r, reply: _ } => pager.done(past.config(), own, r),
        What::Denied { r: _, why: _ } => pager.denied(own),
        What::Served { s, answer } => pager.served(past.config(), own, s, answer),
        What::Zero { a, f } => pager.zero(past.config(), own, a, f),
        What::Collide { a: _, f: _, k } => {
            pager.collide(own, k);
            Ok(())
        }
        What::Limit { n, faults: _ } => {
            pager.limit(own, n);
            Ok(())
        }
        _ => Ok(()),
    }
}

/// The pager's state goes on with an entry of a seat.
///
/// # Errors
/// `NoMemory` if out of memory; the state is then not to be used again.
pub(crate) fn change(
    pager: &mut ShadowPager,
    past: &ShadowHistory<'_>,
    seat: Seat,
    what: What,
) -> Result<(), NoMemory>
    requires { AreNamedThere past.now.config (shown pager.old) (open_flights past.now.past) seat.0 what }
    ensures { OnOk result (shown pager.new ≡ with_pager (shown pager.old)
        (after_what past.now.config past.now.past (shown pager.old).pager seat.0 what)) }
{
    match what {
        What::Reuse { f, page } => reuse(pager, past, f, page),
        What::Back { p, a, f, from: _ } => pager.back(p, a, f),
        What::In { f, block: _, role } => pager.read_begins(past.config(), f, role),
        What::InOk { f, k } => read_lands(pager, past, f, k),
        What::InFail {
            f,
            k: _,
            c: _,
            d: _,
        } => {
            pager.read_fails(f);
            Ok(())
        }
        What::Out { f, block } => pager.write_begins(f, block),
        What::OutOk { f, k } => write_lands(pager, past, f, k),
        What::OutFail { f, k, c, d } => write_fails(pager, past, f, k, c, d),
        What::Evict { p, a, f, why, to } => pager.evict(why, p, a, f, to),
        What::Turn { p, status } => {
            pager.turn(p, status);
            Ok(())
        }
        What::Done { .. }
        | What::Denied { .. }
        | What::Served { .. }
        | What::Zero { .. }
        | What::Collide { .. }
        | What::Limit { .. } => change_own(pager, past, Proc(seat.0), what),
    }
}
