//! The pager's state after a part of a log.

ghost use Rattle.std.specs.Prelude.{◌≡◌, ℕ, false, ◌*◌, ◌^◌, ◌<◌, ◌≤◌, [], None, All, IfOk, length, map, not, filter, replicate, vec_len};
ghost use Rattle.std.specs.List.{range_with_len};
ghost use Rattle.vm_types.specs.declared.limits.TheConstants.{MOST_EXTENT, MOST_FRAMES, PRIVATE_PAGES};
ghost use Rattle.vm_types.specs.Configuration.{IsWellFormed};
ghost use Rattle.vm_types.specs.declared.config.ProcSpec.{ProcSpec as Spec};
ghost use Rattle.vm_types.specs.declared.config.Section.{Section as SectionOf};
ghost use Rattle.vm_types.specs.declared.names.Page.{Page as AnyPage};
ghost use Rattle.vm_types.specs.PagePlaces.{item_at};
ghost use Rattle.pager_model.specs.Maps.{first_map};
ghost use Rattle.pager_model.specs.Opening.{first_block, first_state, is_bad, opening};
ghost use Rattle.pager_model.specs.Sets.{has};
ghost use Rattle.shadow_tables.specs.Lying.{lies_by};
ghost use Rattle.shadow_tables.specs.Rings.{empty_ring};

use crate::frames::push_if;
use shadow_tables::{
    AssignedBlocks, Behind, FrameList, HeldPages, LyingPages, PageList, Ring, ValidEntries,
    pages_of,
};
use std::alloc::{AllocError, Global};
use vm_types::{Config, FrameState, NoMemory, Pfn, ProcSpec, ProcStatus};

/// The pager's state after a part of a log: tables by the number of a frame, of a process, and of a
/// page's place, and lists. A method that makes a change is given what the change's entry says.
#[derive(Drop)]
pub struct ShadowPager {
    pub(crate) states: Vec<FrameState>,
    pub(crate) held: HeldPages,
    pub(crate) marks: Vec<bool>,
    pub(crate) free: FrameList,
    pub(crate) modified: Vec<u32>,
    pub(crate) statuses: Vec<ProcStatus>,
    pub(crate) rings: Vec<Ring>,
    pub(crate) limits: Vec<u32>,
    pub(crate) references: Vec<u64>,
    pub(crate) faults: Vec<u64>,
    pub(crate) collided: Vec<Option<u64>>,
    pub(crate) pages: Vec<Option<Behind>>,
    pub(crate) valid: ValidEntries,
    pub(crate) charged: PageList,
    pub(crate) touched: PageList,
    pub(crate) lies: LyingPages,
    pub(crate) assigned: AssignedBlocks,
    ghost few: { vec_len states ≤ MOST_FRAMES },
    ghost each_held: { length held ≡ vec_len states },
    ghost each_mark: { vec_len marks ≡ vec_len states },
    ghost each_ring: { vec_len rings ≡ vec_len statuses },
    ghost each_limit: { vec_len limits ≡ vec_len statuses },
    ghost each_references: { vec_len references ≡ vec_len statuses },
    ghost each_faults: { vec_len faults ≡ vec_len statuses },
    ghost each_collided: { vec_len collided ≡ vec_len statuses },
    ghost each_page: { vec_len pages ≡ vec_len statuses * PRIVATE_PAGES },
}

/// Whether a frame is bad; one that isn't there counts as bad.
fn is_bad(config: &Config, f: u32) -> bool
    ensures { result ≡ is_bad config.now f }
{
    config.frames <= f || has(config.bad.items(), f)
}

/// Whether a number is in a list.
fn has(numbers: &[u32], number: u32) -> bool
    ensures { result ≡ has numbers.now number }
{
    numbers.iter().any(|other| number == *other)
}

/// The state of a frame at first.
fn first_state(bad: bool) -> FrameState
    ensures { result ≡ first_state bad }
{
    if bad {
        FrameState::Bad
    } else {
        FrameState::Free
    }
}

/// The state of each frame at first.
fn states_of(alloc: Global, config: &Config) -> Result<Vec<FrameState>, NoMemory>
    ensures count { IfOk result (λ states. vec_len states ≡ config.now.frames) }
    ensures states { IfOk result (λ states. states.items ≡ map (λ f. first_state (is_bad config.now f)) (range_with_len 0 config.now.frames)) }
{
    let mut states = Vec::new(alloc);
    for f in 0..config.frames {
        states.push(first_state(is_bad(config, f)))?;
    }
    Ok(states)
}

/// The frames that are free at first, in number order.
fn free_of(alloc: Global, config: &Config) -> Result<FrameList, NoMemory>
    ensures { IfOk result (λ free. free ≡ filter (λ f. not (is_bad config.now f)) (range_with_len 0 config.now.frames)) }
{
    let mut free = FrameList::new(alloc, config.frames)?;
    for f in 0..config.frames {
        push_if(!is_bad(config, f), &mut free, Pfn(f))?;
    }
    Ok(free)
}

/// An empty ring for each process, of as many slots as its extent.
fn rings_of(alloc: Global, procs: &[ProcSpec]) -> Result<Vec<Ring>, NoMemory>
    requires some { All (λ (spec : Spec). 1 ≤ spec.extent) procs.now }
    requires few { All (λ (spec : Spec). spec.extent ≤ MOST_EXTENT) procs.now }
    ensures { IfOk result (λ rings. rings.items ≡ map empty_ring procs.now) }
{
    let mut rings = Vec::new(alloc);
    for spec in procs {
        rings.push(Ring::new(alloc, spec.extent)?)?;
    }
    Ok(rings)
}

/// The limit of each process at first.
fn limits_of(alloc: Global, procs: &[ProcSpec]) -> Result<Vec<u32>, AllocError>
    ensures { IfOk result (λ limits. limits.items ≡ map (λ (spec : Spec). spec.limit) procs.now) }
{
    procs.iter().map(|spec| spec.limit).collect(alloc)
}

/// How many processes there are.
fn processes_of(config: &Config) -> usize
    requires { IsWellFormed config.now }
    ensures count { result ≡ length config.now.procs }
    ensures few { result < 2 ^ 32 }
{
    config.procs.items().len()
}

/// The tables by the number of a frame, before a log's first entry.
#[derive(Drop)]
struct FrameTables {
    states: Vec<FrameState>,
    held: HeldPages,
    marks: Vec<bool>,
    free: FrameList,
    ghost each_held: { length held ≡ vec_len states },
    ghost each_mark: { vec_len marks ≡ vec_len states },
}

/// Makes the tables by the number of a frame.
fn frame_tables(alloc: Global, config: &Config) -> Result<FrameTables, NoMemory>
    requires { IsWellFormed config.now }
    ensures count { IfOk result (λ t. vec_len t.states ≡ config.now.frames) }
    ensures states { IfOk result (λ t. t.states.items ≡ map (λ f. first_state (is_bad config.now f)) (range_with_len 0 config.now.frames)) }
    ensures held { IfOk result (λ t. t.held ≡ replicate config.now.frames None) }
    ensures marks { IfOk result (λ t. t.marks.items ≡ replicate config.now.frames false) }
    ensures free { IfOk result (λ t. t.free ≡ filter (λ f. not (is_bad config.now f)) (range_with_len 0 config.now.frames)) }
{
    let frames = config.frames as usize;
    let count = processes_of(config);
    Ok(FrameTables {
        states: states_of(alloc, config)?,
        held: HeldPages::new(alloc, frames, count, config.sections.items())?,
        marks: vec![in alloc; false; frames]?,
        free: free_of(alloc, config)?,
    })
}

/// The tables by the number of a process, before a log's first entry.
#[derive(Drop)]
struct ProcessTables {
    statuses: Vec<ProcStatus>,
    rings: Vec<Ring>,
    limits: Vec<u32>,
    references: Vec<u64>,
    faults: Vec<u64>,
    collided: Vec<Option<u64>>,
    ghost each_ring: { vec_len rings ≡ vec_len statuses },
    ghost each_limit: { vec_len limits ≡ vec_len statuses },
    ghost each_references: { vec_len references ≡ vec_len statuses },
    ghost each_faults: { vec_len faults ≡ vec_len statuses },
    ghost each_collided: { vec_len collided ≡ vec_len statuses },
}

/// Makes the tables by the number of a process.
fn process_tables(alloc: Global, procs: &[ProcSpec]) -> Result<ProcessTables, NoMemory>
    requires some { All (λ (spec : Spec). 1 ≤ spec.extent) procs.now }
    requires few { All (λ (spec : Spec). spec.extent ≤ MOST_EXTENT) procs.now }
    ensures count { IfOk result (λ t. vec_len t.statuses ≡ length procs.now) }
    ensures statuses { IfOk result (λ t. t.statuses.items ≡ replicate (length procs.now) ProcStatus.Resident) }
    ensures rings { IfOk result (λ t. t.rings.items ≡ map empty_ring procs.now) }
    ensures limits { IfOk result (λ t. t.limits.items ≡ map (λ (spec : Spec). spec.limit) procs.now) }
    ensures references { IfOk result (λ t. t.references.items ≡ replicate (length procs.now) 0) }
    ensures faults { IfOk result (λ t. t.faults.items ≡ replicate (length procs.now) 0) }
    ensures collided { IfOk result (λ t. t.collided.items ≡ replicate (length procs.now) None) }
{
    let count = procs.len();
    Ok(ProcessTables {
        statuses: vec![in alloc; ProcStatus::Resident; count]?,
        rings: rings_of(alloc, procs)?,
        limits: limits_of(alloc, procs)?,
        references: vec![in alloc; 0; count]?,
        faults: vec![in alloc; 0; count]?,
        collided: vec![in alloc; None; count]?,
    })
}

/// The tables and lists of pages, before a log's first entry.
#[derive(Drop)]
struct PageTables {
    pages: Vec<Option<Behind>>,
    valid: ValidEntries,
    charged: PageList,
    touched: PageList,
    lies: LyingPages,
    assigned: AssignedBlocks,
}

/// Makes the tables and lists of pages.
fn page_tables(alloc: Global, config: &Config) -> Result<PageTables, NoMemory>
    requires { IsWellFormed config.now }
    ensures count { IfOk result (λ t. vec_len t.pages ≡ length config.now.procs * PRIVATE_PAGES) }
    ensures pages { IfOk result (λ t. (p v : ℕ) → item_at t.pages.items p v ≡ first_map config.now p v) }
    ensures valid { IfOk result (λ t. t.valid ≡ []) }
    ensures charged { IfOk result (λ t. t.charged ≡ []) }
    ensures touched { IfOk result (λ t. t.touched ≡ []) }
    ensures lies { IfOk result (λ t. (g : AnyPage) → lies_by t.lies g ≡ first_block config.now g) }
    ensures assigned { IfOk result (λ t. t.assigned ≡ []) }
{
    let count = processes_of(config);
    let sections = config.sections.items();
    Ok(PageTables {
        pages: pages_of(alloc, config)?,
        valid: ValidEntries::new(alloc, count, config.frames as usize)?,
        charged: PageList::new(alloc, count, sections)?,
        touched: PageList::new(alloc, count, sections)?,
        lies: LyingPages::new(alloc, count, sections)?,
        assigned: AssignedBlocks::new(alloc, count, sections, config.pagefile)?,
    })
}

impl ShadowPager {
    ghost use Rattle.shadow_pager.specs.Shown.{shown};

    /// The state before a log's first entry.
    ///
    /// # Errors
    /// `NoMemory` if out of memory.
    pub fn new(alloc: Global, config: &Config) -> Result<ShadowPager, NoMemory>
        requires { IsWellFormed config.now }
        ensures { IfOk result (λ s. shown s ≡ record {
          frames = config.now.frames;
          processes = length config.now.procs;
          pager = opening config.now;
        }) }
    {
        let by_frame = frame_tables(alloc, config)?;
        let by_process = process_tables(alloc, config.procs.items())?;
        let by_page = page_tables(alloc, config)?;
        Ok(ShadowPager {
            states: by_frame.states,
            held: by_frame.held,
            marks: by_frame.marks,
            free: by_frame.free,
            modified: Vec::new(alloc),
            statuses: by_process.statuses,
            rings: by_process.rings,
            limits: by_process.limits,
            references: by_process.references,
            faults: by_process.faults,
            collided: by_process.collided,
            pages: by_page.pages,
            valid: by_page.valid,
            charged: by_page.charged,
            touched: by_page.touched,
            lies: by_page.lies,
            assigned: by_page.assigned,
        })
    }
}
