ghost use Rattle.std.specs.Prelude.{◌≡◌, ◌≤◌, IfOk};
ghost use Rattle.vm_types.specs.Configuration.{IsWellFormed};
ghost use Rattle.vm_types.specs.declared.config.Version.{Version};
ghost use Rattle.trace_maker.specs.Made.{made_body, made_config};

use crate::draws::Draws;
use crate::machine::{mappings, processes, sections};
use std::alloc::Global;
use vm_types::{Body, Config, Listed, NoMemory, Params, Version};

// So many references.
#[tactic(auto, using(crate::proofs::Growing::body_none, crate::proofs::Growing::body_more, crate::proofs::Growing::state_none, crate::proofs::Growing::state_more))]
fn body(alloc: Global, seed: u64, procs: u32, refs: u32) -> Result<Body, NoMemory>
    requires { 1 ≤ procs }
    ensures { IfOk result (λ body. body ≡ made_body seed procs refs) }
{
    let mut draws = Draws { state: seed };
    let mut body = Body::new(alloc);
    for n in 0..refs {
        draws.add(procs, &mut body)?;
    }
    Ok(body)
}

/// The trace that a seed makes, with so many processes, 1 to 16, and so many references, 1 to
/// 100,000: 96 frames for each process and 32 more, a shared section of 256 pages and one of 64 that
/// are copied on reference, and references in user mode of which three in four are near.
///
/// # Errors
/// `NoMemory` if memory ran out.
pub fn make_trace(alloc: Global, seed: u64, procs: u32, refs: u32) -> Result<Config, NoMemory>
    requires some_procs { 1 ≤ procs }
    requires few_procs { procs ≤ 16 }
    requires some_refs { 1 ≤ refs }
    requires few_refs { refs ≤ 100000 }
    ensures made { IfOk result (λ config. config ≡ made_config seed procs refs) }
    ensures well_formed { IfOk result IsWellFormed }
    ensures version { IfOk result (λ config. config.version ≡ Version.One) }
{
    Ok(Config {
        version: Version::One,
        frames: 96 * procs + 32,
        bad: Listed::new(alloc),
        pagefile: 8192,
        params: Params {
            pfc: 8,
            hilimit: 64,
            lolimit: 16,
            waitlimit: 128,
            wrtcluster: 16,
            freelim: 16,
            freegoal: 32,
            awstime: 100,
            pfrath: 20,
            pfratl: 4,
            wsinc: 16,
            wsdec: 8,
            awsmin: 16,
            borrowlim: 64,
        },
        sections: sections(alloc)?,
        procs: processes(alloc, procs)?,
        maps: mappings(alloc, procs)?,
        fails: Listed::new(alloc),
        body: body(alloc, seed, procs, refs)?,
    })
}
