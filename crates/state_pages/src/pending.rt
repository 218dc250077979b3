//! The adjustment of a process that is pending.

ghost use Rattle.std.specs.Prelude.{◌≡◌, ◌≤◌};
ghost use Rattle.vm_types.specs.Configuration.{AreParams, IsLimited};
ghost use Rattle.state_pages.specs.Pending.{pending_by};

use state_parts::ProcessRow;
use vm_types::{Params, ProcSpec};
use working_set::adjust;

/// The limit that a pending adjustment gives, and the faults since the last one; none if none is
/// pending.
pub fn pending_by(
    params: &Params,
    spec: &ProcSpec,
    row: &ProcessRow,
    free: u32,
) -> Option<(u32, u64)>
    requires params { AreParams params.now }
    requires spec { IsLimited spec.now }
    requires limit { row.now.limit ≤ spec.now.extent }
    ensures { result ≡ pending_by params.now spec.now row.now free }
{
    if params.awstime == 0 || u64::from(params.awstime) > row.references {
        return None;
    }
    Some((
        adjust(params, spec, row.faults, row.limit, free),
        row.faults,
    ))
}
