//! Why a process's working set limit may not be set.

ghost use Rattle.std.specs.Prelude.{◌≡◌, ◌↔◌, ◌⊎◌, ◌+◌, ◌<◌, ◌≤◌, Some, IfSome, IsNone, length, slice_get};
ghost use Rattle.vm_types.specs.declared.config.ProcSpec.{ProcSpec as AnySpec};
ghost use Rattle.log_reasons.specs.ServedReasons.{BadLimitFails, LimitFails};

use crate::own::spec_of;
use log_reasons::Reason;
use vm_types::{Config, Proc, ProcSpec};

/// The least limit of a process with these limits.
fn least_of(spec: ProcSpec) -> u64
    ensures { result ≡ spec.locks + 2 }
{
    u64::from(spec.locks) + 2
}

/// Why the limit may not be set to so many pages.
pub(crate) fn limit_fails(config: &Config, p: Proc, n: u32) -> Option<Reason>
    ensures legal { IsNone result ↔ ((spec : AnySpec) → slice_get config.now.procs p.0 ≡ Some spec → (spec.locks + 2 ≤ n) × (n ≤ spec.extent)) }
    ensures said { IfSome result (LimitFails config.now p.0 n) }
{
    let spec = spec_of(config, p)?;
    let least = least_of(spec);
    if u64::from(n) < least || spec.extent < n {
        return Some(Reason::LimitOutOfBounds(least, spec.extent));
    }
    None
}

/// Why it isn't so that the process is there, and its limit may not be set to so many pages.
pub(crate) fn bad_limit_fails(config: &Config, p: Proc, n: u32) -> Option<Reason>
    ensures legal { IsNone result ↔ ((spec : AnySpec) × (slice_get config.now.procs p.0 ≡ Some spec) × ((n < spec.locks + 2) ⊎ (spec.extent < n))) }
    ensures said { IfSome result (BadLimitFails config.now p.0 n) }
{
    match spec_of(config, p) {
        None => Some(Reason::NoSuchProcess(config.procs.items().len())),
        Some(spec) => {
            let least = least_of(spec);
            if u64::from(n) < least || spec.extent < n {
                return None;
            }
            Some(Reason::LimitWithinBounds(least, spec.extent))
        }
    }
}
