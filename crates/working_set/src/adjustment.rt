ghost use Rattle.std.specs.Prelude.{◌≡◌, ◌≤◌};
ghost use Rattle.vm_types.specs.Adjust.{adjust};
ghost use Rattle.vm_types.specs.Configuration.{AreParams, IsLimited};

use vm_types::{Params, ProcSpec};

/// The working set limit that an adjustment gives, in pages: by how many faults the process had since
/// the last one, its limit (at most its extent), and how many frames are free. Above PFRATH faults the
/// limit rises by WSINC, as far as the quota or, with more free frames than BORROWLIM, the extent;
/// below PFRATL it falls by WSDEC, as far as AWSMIN and two more than the pages that may be locked. It
/// never falls for many faults, nor rises for few.
///
/// Source: Kenah and Bate, "VAX/VMS Internals and Data Structures", automatic working set limit
/// adjustment; the exact rule is this project's own.
pub fn adjust(params: &Params, spec: &ProcSpec, faults: u64, limit: u32, free: u32) -> u32
    requires params { AreParams params.now }
    requires spec { IsLimited spec.now }
    requires limit { limit ≤ spec.now.extent }
    ensures { result ≡ adjust params.now spec.now faults limit free }
{
    if faults > u64::from(params.pfrath) {
        let cap = if free > params.borrowlim {
            spec.extent
        } else {
            spec.quota
        };
        return limit.max((limit + params.wsinc).min(cap));
    }
    if faults < u64::from(params.pfratl) {
        let floor = params.awsmin.max(spec.locks + 2);
        return limit.min(limit.saturating_sub(params.wsdec).max(floor));
    }
    limit
}
