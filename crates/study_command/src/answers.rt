ghost use Rattle.std.specs.Prelude.{◌≤◌, length, IfOk};
ghost use Rattle.vm_types.specs.declared.limits.TheConstants.{MOST_LONG_REQUESTS, MOST_STUDY_FRAMES};
ghost use Rattle.paging_study.specs.PageString.{page_string};
ghost use Rattle.study_command.specs.Answered.{AreAnswers};

use crate::words::Study;
use paging_study::{
    Least, PageString, distinct_pages, dropped_places, least_faults, lru_faults, page_string,
    ring_faults,
};
use std::alloc::Global;
use vm_types::{Config, NoMemory};

/// What the references of a process cost.
#[derive(Debug, Drop)]
pub(crate) struct Answers {
    /// How many references there are.
    pub(crate) pages: u32,
    /// How many distinct pages they are to.
    pub(crate) distinct: u32,
    /// Faults in the ring of a working set.
    pub(crate) ring: u32,
    /// Faults if the least recently used page is replaced, with one frame, with two, and so on.
    pub(crate) lru: Vec<u32>,
    /// The least number of faults, how to come to it, and why none is less.
    pub(crate) least: Least,
    /// The places at which an interval begins that is not kept.
    pub(crate) drops: Vec<u32>,
}

/// Studies the references of the process to pages of the configuration.
pub(crate) fn answers_of(alloc: Global, config: &Config, study: Study) -> Result<Answers, NoMemory>
    requires frames { (1 ≤ study.frames) × (study.frames ≤ MOST_STUDY_FRAMES) }
    requires few { length config.now.body ≤ MOST_LONG_REQUESTS }
    ensures { IfOk result (AreAnswers (page_string (study.process).0 config.now.body) study.frames) }
{
    let pages = page_string(alloc, config, study.process)?;
    let pages = PageString::of(alloc, pages)?;
    answers_to(alloc, &pages, study.frames)
}

/// Studies references to these pages.
fn answers_to(alloc: Global, pages: &PageString, frames: u32) -> Result<Answers, NoMemory>
    requires { (1 ≤ frames) × (frames ≤ MOST_STUDY_FRAMES) }
    ensures { IfOk result (AreAnswers pages.now.pages.items frames) }
{
    let distinct = distinct_pages(pages);
    let ring = ring_faults(alloc, pages, frames)?;
    let lru = lru_faults(alloc, pages, frames)?;
    let least = least_faults(alloc, pages, frames)?;
    let drops = dropped_places(alloc, pages, &least.kept)?;
    Ok(Answers {
        pages: pages.pages.len() as u32,
        distinct,
        ring,
        lru,
        least,
        drops,
    })
}
