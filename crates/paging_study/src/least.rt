ghost use Rattle.std.specs.Prelude.{◌≡◌, ℕ, List, true, ◌+◌, ◌-◌, ◌*◌, ◌<◌, ◌≤◌, length, AllPairs, IfOk};
ghost use Rattle.vm_types.specs.declared.limits.TheConstants.{MOST_STUDY_FRAMES};
ghost use Rattle.paging_study.specs.Places.{has};
ghost use Rattle.paging_study.specs.Intervals.{uncut};
ghost use Rattle.paging_study.specs.Schedule.{IsScheduleOf, faults_with, kept_sets};
ghost use Rattle.paging_study.specs.Least.{IsChoiceOf};

use crate::cuts::{cut_flags, places_of};
use crate::drops::drops_of;
use crate::intervals::ends_of;
use crate::kept::{gone_of, kept_of};
use crate::string::PageString;
use std::alloc::Global;
use vm_types::NoMemory;

/// The least number of faults with so many frames, how to come to it, and why none is less.
#[derive(Debug, Drop)]
pub struct Least {
    /// The faults of the kept intervals' schedule.
    pub faults: u32,
    /// For each reference, if its page keeps its frame until the next reference to it; false if there
    /// is none.
    pub kept: Vec<bool>,
    /// The places that show that no schedule has fewer, counted from 1, in order.
    pub cuts: Vec<u32>,
}

/// The least number of faults that references to these pages can have with so many frames, 1 to 1024.
/// Takes time as the number of references.
///
/// # Errors
/// `NoMemory` if memory runs out.
pub fn least_faults(alloc: Global, pages: &PageString, frames: u32) -> Result<Least, NoMemory>
    requires { (1 ≤ frames) × (frames ≤ MOST_STUDY_FRAMES) }
    ensures schedule { IfOk result (λ least. IsScheduleOf pages.now.pages.items frames (kept_sets pages.now.pages.items least.kept.items)) }
    ensures faults { IfOk result (λ least. least.faults ≡ faults_with pages.now.pages.items (kept_sets pages.now.pages.items least.kept.items)) }
    ensures least { IfOk result (λ least. (sets : ℕ → List ℕ) → IsScheduleOf pages.now.pages.items frames sets → least.faults ≤ faults_with pages.now.pages.items sets) }
    ensures certificate { IfOk result (λ least. least.faults + (frames - 1) * length least.cuts.items + uncut pages.now.pages.items least.cuts.items ≡ length pages.now.pages.items) }
    ensures ascending { IfOk result (λ least. AllPairs (λ a b. a < b) least.cuts.items) }
    ensures places { IfOk result (λ least. (place : ℕ) → has least.cuts.items place ≡ true → (1 ≤ place) × (place ≤ length pages.now.pages.items)) }
    ensures flags { IfOk result (λ least. length least.kept.items ≡ length pages.now.pages.items) }
    ensures chosen { IfOk result (λ least. IsChoiceOf pages.now.pages.items (frames - 1) least.kept.items least.cuts.items) }
{
    let ends = ends_of(alloc, &pages.firsts)?;
    let drops = drops_of(alloc, &ends, frames as usize - 1)?;
    let gone = gone_of(alloc, &drops.ends)?;
    let kept = kept_of(alloc, &ends, &gone)?;
    let flags = cut_flags(alloc, &drops.ends)?;
    let cuts = places_of(alloc, &flags)?;
    Ok(Least {
        faults: drops.faults,
        kept,
        cuts,
    })
}
