//! Why an entry isn't a legal next one.

ghost use Rattle.std.specs.Prelude.{◌≡◌, ◌↔◌, ◌+◌, ◌<◌, ◌≤◌, IfSome, IsNone, length};
ghost use Rattle.vm_types.specs.declared.limits.TheConstants.{MOST_FRAMES};
ghost use Rattle.vm_journal.specs.HasLine.{HasLine, WhatHasLine};
ghost use Rattle.pager_model.specs.Order.{IsInOrder};
ghost use Rattle.pager_model.specs.Step.{IsLegal, IsLegalWhat};
ghost use Rattle.log_reasons.specs.EntryReasons.{EntryFails, WhatFails};
ghost use Rattle.shadow_pager.specs.Shown.{shown};
ghost use Rattle.row_requests.specs.FollowsFlat.{FollowsFlat};
ghost use Rattle.log_check.specs.Follows.{Follows};

use log_reasons::Reason;
use pager_laws::{flat_machine_follows, runs_are_of_configuration};
use row_frames::{
    Collision, Eviction, back_fails, bad_landing_fails, collide_fails, evict_fails,
    good_landing_fails, in_fails, out_fails, reuse_fails, zero_fails,
};
use row_requests::{
    denied_fails, done_fails, in_turn_fails, limit_fails, served_fails, turn_fails,
};
use shadow_history::ShadowHistory;
use shadow_pager::ShadowPager;
use vm_journal::{Entry, What};
use vm_types::Seat;

/// Why an entry of its kind that has a line isn't legal by its row.
fn what_fails(
    past: &ShadowHistory<'_>,
    pager: &ShadowPager,
    seat: Seat,
    what: What,
) -> Option<Reason>
    requires line { WhatHasLine (length past.now.config.procs) past.now.config.sections what }
    requires seat { seat.0 < length past.now.config.procs + 2 }
    requires processes { (shown pager.now).processes ≡ length past.now.config.procs }
    requires frames { (shown pager.now).frames ≤ MOST_FRAMES }
    requires flat { FollowsFlat past.now.config past.now.past (shown pager.now).pager }
    requires order { IsInOrder past.now.config past.now.past }
    ensures legal { IsNone result ↔ IsLegalWhat past.now.config past.now.past (shown pager.now).pager seat.0 what }
    ensures said { IfSome result (WhatFails past.now.config past.now.past (shown pager.now).pager seat.0 what) }
{
    let config = past.config();
    match what {
        What::Done { r, reply: _ } => done_fails(config, pager, seat, r),
        What::Denied { r, why } => denied_fails(past, pager, seat, r, why),
        What::Served { s, answer } => served_fails(past, pager, seat, s, answer),
        What::Reuse { f, page } => reuse_fails(past, pager, seat, f, page),
        What::Zero { a, f } => zero_fails(config, pager, seat, a, f),
        What::Back { p, a, f, from } => back_fails(config, pager, seat, p, a, f, from),
        What::Collide { a, f, k } => {
            let c = Collision {
                seat,
                at: a,
                frame: f,
                read: k,
            };
            collide_fails(past, pager, c)
        }
        What::In { f, block, role } => in_fails(past, pager, seat, f, block, role),
        What::InOk { f, k } => good_landing_fails(past, seat, f, k, true),
        What::InFail { f, k, c, d } => bad_landing_fails(past, seat, f, k, c, d, true),
        What::Out { f, block } => out_fails(past, pager, f, block),
        What::OutOk { f, k } => good_landing_fails(past, seat, f, k, false),
        What::OutFail { f, k, c, d } => bad_landing_fails(past, seat, f, k, c, d, false),
        What::Evict { p, a, f, why, to } => {
            let e = Eviction {
                seat,
                process: p,
                at: a,
                frame: f,
                why,
                to,
            };
            evict_fails(past, pager, e)
        }
        What::Limit { n, faults } => limit_fails(config, pager, seat, n, faults),
        What::Turn { p, status } => turn_fails(past, pager, p, status),
    }
}

/// The pager's state has the flat machine's maps and touched pages.
pub(crate) fn flat_is_followed(past: &ShadowHistory<'_>, pager: &ShadowPager)
    requires { Follows past.now.config past.now.past (shown pager.now) }
    ensures { FollowsFlat past.now.config past.now.past (shown pager.now).pager }
{
    flat_machine_follows();
    runs_are_of_configuration();
}

/// Why an entry that has a line isn't a legal next one after those so far, which led to this state of the
/// pager: one of the conditions of its kind that doesn't hold, if there is one. Doesn't allocate.
pub(crate) fn fails(past: &ShadowHistory<'_>, pager: &ShadowPager, e: Entry) -> Option<Reason>
    requires line { HasLine (length past.now.config.procs) past.now.config.sections e }
    requires follows { Follows past.now.config past.now.past (shown pager.now) }
    ensures legal { IsNone result ↔ IsLegal past.now.config past.now.past (shown pager.now).pager e }
    ensures said { IfSome result (EntryFails past.now.config past.now.past (shown pager.now).pager e) }
{
    flat_machine_follows();
    runs_are_of_configuration();
    if let Some(reason) = in_turn_fails(past, e) {
        return Some(reason);
    }
    what_fails(past, pager, e.seat, e.what)
}
