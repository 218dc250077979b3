//! What is kept by page before the first entry.

ghost use Rattle.std.specs.Prelude.{◌≡◌, ℕ, IfOk, None, length, map, replicate, sum_by};
ghost use Rattle.std.specs.Option.{option_map};
ghost use Rattle.vm_types.specs.Behind.{first_behind};
ghost use Rattle.vm_types.specs.Configuration.{IsWellFormed, section_pages};
ghost use Rattle.vm_types.specs.declared.names.Page.{Page};
ghost use Rattle.page_tables.specs.PageTables.{pte_in};
ghost use Rattle.pager_model.specs.Maps.{first_map};
ghost use Rattle.section_table.specs.SectionTable.{behind_of, part_of};
ghost use Rattle.state_parts.specs.ChargedTable.{HasPagedPlaces, kept_at};
ghost use Rattle.state_parts.specs.SwapTable.{swapped_at};
ghost use Rattle.state_fits.specs.Opening.{first_pte};
ghost use Rattle.first_parts.specs.Laying.{HasFirsts};

use crate::mappings_laid::lay_all;
use frame_store::{firsts, page_counts};
use global_pages::Globals;
use page_file::PageFile;
use page_tables::Tables;
use section_table::Sections;
use state_parts::{ChargedPages, SwapPages};
use std::alloc::Global;
use vm_types::{Config, NoMemory};

/// What is kept by page.
#[derive(Drop)]
pub struct FirstPageParts {
    pub tables: Tables,
    pub sections: Sections,
    pub pages: ChargedPages,
    pub globals: Globals,
    pub file: PageFile,
    pub swaps: SwapPages,
}

/// The number of the first page of each section, and how many section pages there are.
///
/// # Errors
/// `NoMemory` if out of memory.
pub fn first_pages(alloc: Global, config: &Config) -> Result<(Vec<u32>, u32), NoMemory>
    requires { IsWellFormed config.now }
    ensures firsts { IfOk result (λ r. HasFirsts config.now r.0.items) }
    ensures total { IfOk result (λ r. r.1 ≡ sum_by section_pages config.now.sections) }
{
    let counts = page_counts(alloc, config.sections.items())?;
    Ok(firsts(alloc, 0, &counts)?)
}

/// The page tables as the mappings say, and nothing in a frame, in the page file or in a swap block.
/// `total` is how many section pages there are.
///
/// # Errors
/// `NoMemory` if out of memory.
pub fn first_page_parts(
    alloc: Global,
    config: &Config,
    firsts: &[u32],
    total: u32,
) -> Result<FirstPageParts, NoMemory>
    requires formed { IsWellFormed config.now }
    requires firsts { HasFirsts config.now firsts.now }
    ensures table_procs { IfOk result (λ x. x.tables.procs ≡ length config.now.procs) }
    ensures entries { IfOk result (λ x. (p v : ℕ) → pte_in x.tables p v ≡ option_map (first_pte config.now p v) (first_map config.now p v)) }
    ensures section_procs { IfOk result (λ x. x.sections.procs ≡ length config.now.procs) }
    ensures kinds { IfOk result (λ x. x.sections.parts ≡ map part_of config.now.sections) }
    ensures behind { IfOk result (λ x. (p v : ℕ) → behind_of x.sections p v ≡ first_behind config.now p v) }
    ensures page_procs { IfOk result (λ x. x.pages.procs ≡ length config.now.procs) }
    ensures page_places { IfOk result (λ x. HasPagedPlaces config.now.sections x.pages) }
    ensures pages { IfOk result (λ x. (g : Page) → kept_at x.pages g ≡ None) }
    ensures globals { IfOk result (λ x. x.globals ≡ record { frames = replicate total None; counts = replicate total 0 }) }
    ensures file { IfOk result (λ x. x.file ≡ record { charged = 0; owners = replicate config.now.pagefile None }) }
    ensures swap_procs { IfOk result (λ x. x.swaps.procs ≡ length config.now.procs) }
    ensures swaps { IfOk result (λ x. (p n : ℕ) → swapped_at x.swaps p n ≡ None) }
{
    let procs = config.procs.items().len() as u32;
    Ok(FirstPageParts {
        tables: first_tables(alloc, config, firsts)?,
        sections: Sections::new(alloc, config)?,
        pages: ChargedPages::new(alloc, procs, config.sections.items())?,
        globals: Globals::new(alloc, total)?,
        file: PageFile::new(alloc, config.pagefile)?,
        swaps: SwapPages::new(alloc, procs)?,
    })
}

/// The page tables before the first entry.
fn first_tables(alloc: Global, config: &Config, firsts: &[u32]) -> Result<Tables, NoMemory>
    requires formed { IsWellFormed config.now }
    requires firsts { HasFirsts config.now firsts.now }
    ensures procs { IfOk result (λ t. t.procs ≡ length config.now.procs) }
    ensures entries { IfOk result (λ t. (p v : ℕ) → pte_in t p v ≡ option_map (first_pte config.now p v) (first_map config.now p v)) }
{
    let mut tables = Tables::new(alloc, config.procs.items().len() as u32)?;
    lay_all(&mut tables, config, firsts);
    Ok(tables)
}
