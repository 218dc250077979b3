//! Why a block isn't home: one of the configuration, and in no flight.

ghost use Rattle.std.specs.Prelude.{◌≡◌, ◌↔◌, IfSome, IsNone, IsTrue};
ghost use Rattle.vm_types.specs.Configuration.{IsBlock, IsSectionPage};
ghost use Rattle.pager_model.specs.Flights.{open_flights};
ghost use Rattle.pager_model.specs.Transfers.{IsHome};
ghost use Rattle.log_reasons.specs.ReadReasons.{HomeFails};

use log_reasons::Reason;
use shadow_history::ShadowHistory;
use shadow_tables::is_paged;
use vm_types::{BlockId, Config, PAGE_BYTES, Page, Proc, SecId, Section};

/// Whether a section has a page of this number.
fn has_page(sections: &[Section], s: SecId, page: u32) -> bool
    ensures { IsTrue result ↔ IsSectionPage sections.now s.0 page }
{
    match sections.get(s.0 as usize) {
        None => false,
        Some(section) => (page as usize) < section.bytes.items().len() / PAGE_BYTES as usize,
    }
}

/// Whether a process has a slot of this number.
fn has_slot(config: &Config, p: Proc, n: u32) -> bool
    ensures { IsTrue result ↔ IsBlock config.now (BlockId.Swap p n) }
{
    match config.procs.items().get(p.0 as usize) {
        None => false,
        Some(spec) => n < spec.extent,
    }
}

/// Whether the block is one of the configuration.
fn is_block(config: &Config, block: BlockId) -> bool
    ensures { IsTrue result ↔ IsBlock config.now block }
{
    match block {
        BlockId::Section(s, page) => {
            has_page(config.sections.items(), s, page) && !is_paged(config, Page::Shared(s, page))
        }
        BlockId::PageFile(b) => b < config.pagefile,
        BlockId::Swap(p, n) => has_slot(config, p, n),
    }
}

/// Why a block isn't one of the configuration, or is in flight.
pub(crate) fn home_fails(past: &ShadowHistory<'_>, block: BlockId) -> Option<Reason>
    ensures legal { IsNone result ↔ IsHome past.now.config block (open_flights past.now.past) }
    ensures said { IfSome result (HomeFails past.now.config past.now.past block) }
{
    if !is_block(past.config(), block) {
        return Some(Reason::NoSuchBlock);
    }
    if !past.is_still(block) {
        return Some(Reason::BlockInFlight);
    }
    None
}
