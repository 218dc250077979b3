ghost use Rattle.std.specs.Prelude.{◌≡◌, ◌*◌, nat_eq};
ghost use Rattle.vm_types.specs.declared.limits.TheConstants.{PAGE_BYTES};
ghost use Rattle.pager_policy.specs.Rundown.{writer_of};
ghost use Rattle.log_laws.specs.Underway.{is_made, landed_as, same_made, shown_as};
ghost use Rattle.log_rundown.specs.Chosen.{eviction_as};
ghost use Rattle.log_rundown.specs.Written.{write_as};

use crate::eviction::Eviction;
use crate::write::Write;
use shadow_history::{Flight, ShadowHistory};
use vm_journal::{Entry, EvictWhy, What};
use vm_types::{Addr, Config, PAGE_BYTES, Pfn, Proc, Seat, is_same_block, is_same_state};

/// Whether it is the modified page writer's seat.
fn is_writer(config: &Config, seat: Seat) -> bool
    ensures { result ≡ nat_eq seat.0 (writer_of config.now) }
{
    seat.0 as usize == config.procs.items().len()
}

/// Whether the address is the first one of the page of this number.
fn is_page_address(vpn: u32, a: Addr) -> bool
    ensures { result ≡ nat_eq (PAGE_BYTES * vpn) a.0 }
{
    u64::from(PAGE_BYTES) * u64::from(vpn) == u64::from(a.0)
}

/// Whether the entry is this eviction.
fn is_same_eviction(x: Eviction, what: What) -> bool
    ensures { result ≡ same_made (eviction_as x) what }
{
    match what {
        What::Evict { p, a, f, why, to } => match why {
            EvictWhy::Rundown => x.process.0 == p.0
                && (is_page_address(x.vpn, a) && (x.frame.0 == f.0 && is_same_state(x.to, to))),
            EvictWhy::Replace | EvictWhy::Purge | EvictWhy::Delete | EvictWhy::Leave => false,
        },
        _ => false,
    }
}

/// Whether the entry begins this write.
fn is_same_write(w: Write, what: What) -> bool
    ensures { result ≡ same_made (write_as w) what }
{
    match what {
        What::Out { f, block } => w.frame.0 == f.0 && is_same_block(w.block, block),
        _ => false,
    }
}

/// Whether the entry is this eviction, by the modified page writer's seat.
pub(crate) fn is_evicted(config: &Config, x: Eviction, e: Entry) -> bool
    ensures { result ≡ is_made config.now (eviction_as x) e }
{
    is_writer(config, e.seat) && is_same_eviction(x, e.what)
}

/// Whether the entry begins this write, by the modified page writer's seat.
pub(crate) fn is_begun(config: &Config, w: Write, e: Entry) -> bool
    ensures { result ≡ is_made config.now (write_as w) e }
{
    is_writer(config, e.seat) && is_same_write(w, e.what)
}

/// Whether the flight's landing failed, as the entry shows it; none if this isn't its landing.
fn shown_as(past: &ShadowHistory<'_>, x: Flight, what: What) -> Option<bool>
    ensures { result ≡ shown_as past.now.past x what }
{
    match what {
        What::OutOk { f, k } => {
            if f.0 == x.frame().0 && k == x.start() {
                Some(false)
            } else {
                None
            }
        }
        What::OutFail { f, k, c, .. } => {
            if f.0 == x.frame().0 && (k == x.start() && c == past.last_count(x.block())) {
                Some(true)
            } else {
                None
            }
        }
        _ => None,
    }
}

/// Whether the flight's landing failed, as the entry of the modified page writer's seat shows it; none if
/// this isn't its landing.
pub(crate) fn landed_as(past: &ShadowHistory<'_>, x: Flight, e: Entry) -> Option<bool>
    ensures { result ≡ landed_as past.now.config past.now.past x e }
{
    if is_writer(past.config(), e.seat) {
        shown_as(past, x, e.what)
    } else {
        None
    }
}
