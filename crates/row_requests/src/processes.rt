//! LIMIT and TURN: why a working set limit may not be adjusted, or a process's status not change.

ghost use Rattle.std.specs.Prelude.{◌≡◌, ◌↔◌, ◌<◌, true, Some, IfSome, IsNone, length, slice_get};
ghost use Rattle.vm_types.specs.Adjust.{adjust, cap_of, floor_of};
ghost use Rattle.vm_types.specs.declared.config.ProcSpec.{ProcSpec as AnySpec};
ghost use Rattle.pager_model.specs.Limit.{IsLimit};
ghost use Rattle.pager_model.specs.Lookups.{is_pending};
ghost use Rattle.pager_model.specs.Turn.{IsLeavingTurn, IsTurn, IsTurned};
ghost use Rattle.log_reasons.specs.ProcessReasons.{AdjustFails, AdjustedFails, TurnFails, TurnedFails};
ghost use Rattle.shadow_pager.specs.Shown.{shown};

use crate::own::{own_fails, spec_of};
use log_reasons::Reason;
use shadow_history::ShadowHistory;
use shadow_pager::ShadowPager;
use vm_types::{Config, Params, Proc, ProcSpec, ProcStatus, Seat};

/// Whether an adjustment is pending after so many references.
pub(crate) fn is_pending(config: &Config, references: u64) -> bool
    ensures { result ≡ is_pending config.now references }
{
    let awstime = config.params.awstime;
    awstime != 0 && u64::from(awstime) <= references
}

/// The limit that an adjustment gives with so many faults, this limit and so many free frames.
fn adjusted(params: &Params, spec: &ProcSpec, faults: u64, limit: u32, free: usize) -> u64
    ensures { result ≡ adjust params.now spec.now faults limit free }
{
    let old = u64::from(limit);
    if faults > u64::from(params.pfrath) {
        let cap = if free > params.borrowlim as usize {
            spec.extent
        } else {
            spec.quota
        };
        return old.max((old + u64::from(params.wsinc)).min(u64::from(cap)));
    }
    if faults < u64::from(params.pfratl) {
        let floor = u64::from(params.awsmin).max(u64::from(spec.locks) + 2);
        return old.min(old.saturating_sub(u64::from(params.wsdec)).max(floor));
    }
    old
}

/// The limit that the rule gives a process with these limits.
fn right_limit(config: &Config, pager: &ShadowPager, p: Proc, spec: ProcSpec) -> u64
    ensures { result ≡ adjust config.now.params spec ((shown pager.now).pager.faults p.0) ((shown pager.now).pager.limit p.0) (length (shown pager.now).pager.free) }
{
    let free = pager.free_frames();
    adjusted(
        &config.params,
        &spec,
        pager.faults(p),
        pager.limit_of(p),
        free,
    )
}

/// Why the rule doesn't give a process, if it is there, a limit of so many pages after so many faults.
fn adjust_fails(
    config: &Config,
    pager: &ShadowPager,
    p: Proc,
    n: u32,
    faults: u64,
) -> Option<Reason>
    ensures legal { IsNone result ↔ ((is_pending config.now ((shown pager.now).pager.references p.0) ≡ true) × (faults ≡ (shown pager.now).pager.faults p.0)
        × ((spec : AnySpec) → slice_get config.now.procs p.0 ≡ Some spec
        → n ≡ adjust config.now.params spec ((shown pager.now).pager.faults p.0) ((shown pager.now).pager.limit p.0) (length (shown pager.now).pager.free))) }
    ensures said { IfSome result (AdjustFails config.now (shown pager.now).pager p.0 n faults) }
{
    let references = pager.references(p);
    if !is_pending(config, references) {
        return Some(Reason::AdjustmentNotPending(references));
    }
    let counted = pager.faults(p);
    if faults != counted {
        return Some(Reason::WrongFaults(counted));
    }
    let spec = spec_of(config, p)?;
    let right = right_limit(config, pager, p, spec);
    if u64::from(n) != right {
        return Some(Reason::WrongLimit(right));
    }
    None
}

/// Why a seat's process may not have its limit adjusted to so many pages after so many faults.
pub fn limit_fails(
    config: &Config,
    pager: &ShadowPager,
    seat: Seat,
    n: u32,
    faults: u64,
) -> Option<Reason>
    ensures legal { IsNone result ↔ IsLimit config.now (shown pager.now).pager seat.0 n faults }
    ensures said { IfSome result (AdjustedFails config.now (shown pager.now).pager seat.0 n faults) }
{
    let p = Proc(seat.0);
    if let Some(reason) = own_fails(config, pager, p) {
        return Some(reason);
    }
    adjust_fails(config, pager, p, n, faults)
}

/// Why a process may not begin to leave.
fn leaving_fails(past: &ShadowHistory<'_>, pager: &ShadowPager, p: Proc) -> Option<Reason>
    ensures legal { IsNone result ↔ IsLeavingTurn past.now.past (shown pager.now).pager p.0 }
    ensures said { IfSome result (TurnedFails past.now.past (shown pager.now).pager p.0 ProcStatus.Leaving) }
{
    let status = pager.status(p);
    if status != ProcStatus::Resident && status != ProcStatus::Coming {
        return Some(Reason::InOtherStatus(status));
    }
    if past.is_busy(Seat(p.0)) {
        return Some(Reason::SeatHasOpenTransfer);
    }
    if past.has_come(p) {
        return Some(Reason::PageIsComing);
    }
    None
}

/// Why a leaving process isn't gone.
fn gone_fails(past: &ShadowHistory<'_>, pager: &ShadowPager, p: Proc) -> Option<Reason>
    requires { p.0 < (shown pager.now).processes }
    ensures legal { IsNone result ↔ IsTurned past.now.past (shown pager.now).pager p.0 ProcStatus.Gone }
    ensures said { IfSome result (TurnedFails past.now.past (shown pager.now).pager p.0 ProcStatus.Gone) }
{
    let status = pager.status(p);
    if status != ProcStatus::Leaving {
        return Some(Reason::InOtherStatus(status));
    }
    let left = pager.ring(p).unpinned();
    if left != 0 {
        return Some(Reason::PagesAreLeft(left));
    }
    None
}

/// Why a process may not begin to come.
fn coming_fails(_past: &ShadowHistory<'_>, pager: &ShadowPager, p: Proc) -> Option<Reason>
    ensures legal { IsNone result ↔ IsTurned _past.now.past (shown pager.now).pager p.0 ProcStatus.Coming }
    ensures said { IfSome result (TurnedFails _past.now.past (shown pager.now).pager p.0 ProcStatus.Coming) }
{
    let status = pager.status(p);
    if status != ProcStatus::Gone {
        return Some(Reason::InOtherStatus(status));
    }
    if !pager.none_is_coming() {
        return Some(Reason::OtherIsComing);
    }
    None
}

/// Why a coming process isn't resident.
fn resident_fails(_past: &ShadowHistory<'_>, pager: &ShadowPager, p: Proc) -> Option<Reason>
    ensures legal { IsNone result ↔ IsTurned _past.now.past (shown pager.now).pager p.0 ProcStatus.Resident }
    ensures said { IfSome result (TurnedFails _past.now.past (shown pager.now).pager p.0 ProcStatus.Resident) }
{
    let status = pager.status(p);
    if status != ProcStatus::Coming {
        return Some(Reason::InOtherStatus(status));
    }
    if !pager.none_is_swapped(p) {
        return Some(Reason::PagesAreSwapped);
    }
    None
}

/// Why a process may not change to a status.
pub fn turn_fails(
    past: &ShadowHistory<'_>,
    pager: &ShadowPager,
    p: Proc,
    status: ProcStatus,
) -> Option<Reason>
    requires { (shown pager.now).processes ≡ length past.now.config.procs }
    ensures legal { IsNone result ↔ IsTurn past.now.config past.now.past (shown pager.now).pager p.0 status }
    ensures said { IfSome result (TurnFails past.now.config past.now.past (shown pager.now).pager p.0 status) }
{
    let processes = past.config().procs.items().len();
    if processes <= p.0 as usize {
        return Some(Reason::NoSuchProcess(processes));
    }
    match status {
        ProcStatus::Leaving => leaving_fails(past, pager, p),
        ProcStatus::Gone => gone_fails(past, pager, p),
        ProcStatus::Coming => coming_fails(past, pager, p),
        ProcStatus::Resident => resident_fails(past, pager, p),
    }
}
