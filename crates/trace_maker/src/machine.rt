ghost use Rattle.std.specs.Prelude.{◌≡◌, ◌≤◌, IfOk};
ghost use Rattle.trace_maker.specs.Made.{pattern, made_section, made_sections, made_process, made_procs, made_map, made_maps};

use std::alloc::Global;
use vm_types::{
    Addr, Listed, Mapping, NoMemory, Origin, PAGE_BYTES, Proc, ProcSpec, SecId, Section,
    SectionKind,
};

// The first bytes of a section.
fn bytes_of(alloc: Global, count: u32) -> Result<Listed<u8>, NoMemory>
    ensures { IfOk result (λ bytes. bytes ≡ pattern count) }
{
    let mut bytes = vec![in alloc; 0; count as usize]?;
    for n in 0..count {
        bytes[n as usize] = ((n / PAGE_BYTES + n % PAGE_BYTES) % 256) as u8;
    }
    Ok(Listed::of(bytes))
}

fn section(alloc: Global, name: &[u8], kind: SectionKind, pages: u32) -> Result<Section, NoMemory>
    requires { pages ≤ 256 }
    ensures { IfOk result (λ section. section ≡ made_section name.now kind pages) }
{
    Ok(Section {
        name: Listed::of(name.to_vec(alloc)?),
        kind,
        bytes: bytes_of(alloc, PAGE_BYTES * pages)?,
    })
}

/// The sections LIB and IMG.
pub(crate) fn sections(alloc: Global) -> Result<Listed<Section>, NoMemory>
    ensures { IfOk result (λ sections. sections ≡ made_sections) }
{
    let mut sections = Listed::new(alloc);
    sections.push(section(alloc, b"LIB", SectionKind::Shared, 256)?)?;
    sections.push(section(alloc, b"IMG", SectionKind::Crf, 64)?)?;
    Ok(sections)
}

/// So many processes.
#[tactic(auto, using(crate::proofs::Growing::procs_none, crate::proofs::Growing::procs_more))]
pub(crate) fn processes(alloc: Global, count: u32) -> Result<Listed<ProcSpec>, NoMemory>
    ensures { IfOk result (λ procs. procs ≡ made_procs count) }
{
    let mut procs = Listed::new(alloc);
    for n in 0..count {
        procs.push(ProcSpec {
            limit: 48,
            quota: 64,
            extent: 80,
            locks: 8,
        })?;
    }
    Ok(procs)
}

fn mapping(p: u32, at: u32, pages: u32, from: Origin) -> Mapping
    ensures { result ≡ made_map p at pages from }
{
    Mapping {
        proc: Proc(p),
        at: Addr(at),
        pages,
        from,
        prot: 4,
    }
}

/// What each of so many processes maps.
#[tactic(auto, using(crate::proofs::Growing::maps_none, crate::proofs::Growing::maps_more))]
pub(crate) fn mappings(alloc: Global, count: u32) -> Result<Listed<Mapping>, NoMemory>
    ensures { IfOk result (λ maps. maps ≡ made_maps count) }
{
    let mut maps = Listed::new(alloc);
    for p in 0..count {
        maps.push(mapping(p, 0, 256, Origin::Zero))?;
        maps.push(mapping(p, 0x4_0000, 256, Origin::Section(SecId(0), 0)))?;
        maps.push(mapping(p, 0x8_0000, 64, Origin::Section(SecId(1), 0)))?;
        maps.push(mapping(p, 0x7fff_c000, 32, Origin::Zero))?;
    }
    Ok(maps)
}
