ghost use Rattle.vm_types.specs.declared.config.Config.{Config};
ghost use Rattle.std.specs.Prelude.{◌≡◌};
ghost use Rattle.state_fits.specs.Entries.{origin_place, resting_place};
ghost use Rattle.state_pages.specs.Resting.{CanRest, IsAtRest, IsNumberedOrigin, MayRest, MayUncharge, Rests, Uncharges};

use crate::sharing::section_page;
use crate::shown::entry_in;
use page_file::PageFile;
use page_tables::Tables;
use pte_forms::{Place, Pte};
use section_table::Sections;
use state_parts::ChargedPages;
use vm_types::{BlockId, Origin, Page, Proc};

/// Lets the entry of a private page name the place where the page rests, in no frame.
pub fn rest(
    tables: &mut Tables,
    pages: &ChargedPages,
    sections: &Sections,
    firsts: &[u32],
    page: Page,
)
    requires { (config : Config) × MayRest config firsts.now pages.now sections.now tables.old page }
    ensures { (config : Config) → MayRest config firsts.now pages.now sections.now tables.old page
        → Rests config pages.now sections.now tables.old tables.new page }
{
    if let Page::Private(p, vpn) = page {
        rest_own(tables, pages, sections, firsts, p, vpn);
    }
}

/// A private page that was charged for a first read that failed isn't charged any more.
pub fn uncharge_unread(
    pages: &mut ChargedPages,
    file: &mut PageFile,
    failed: Option<BlockId>,
    page: Page,
)
    requires { MayUncharge page failed pages.old file.old }
    ensures { Uncharges page failed pages.old pages.new file.old file.new }
{
    if let (Page::Private(..), Some(BlockId::Section(..))) = (page, failed) {
        pages.set(page, None);
        file.uncharge();
    }
}

/// The entry of a page of a process.
fn rest_own(
    tables: &mut Tables,
    pages: &ChargedPages,
    sections: &Sections,
    firsts: &[u32],
    p: Proc,
    vpn: u32,
)
    requires { (config : Config) × CanRest config firsts.now pages.now sections.now tables.old p.0 vpn }
    ensures { (config : Config) → CanRest config firsts.now pages.now sections.now tables.old p.0 vpn
        → IsAtRest config pages.now sections.now tables.old tables.new p.0 vpn }
{
    let lies = pages.at(Page::Private(p, vpn)).unwrap().lies;
    let behind = sections.behind(p, vpn).unwrap();
    let place = resting_at(firsts, behind, lies);
    let look = tables.look(p, vpn);
    let prot = entry_in(look).unwrap().prot;
    tables.set(p, vpn, Pte { prot, place });
}

/// The place of a page that is in no frame.
fn resting_at(firsts: &[u32], behind: Origin, lies: Option<BlockId>) -> Place
    requires { (config : Config) × IsNumberedOrigin config firsts.now behind }
    ensures { (config : Config) → IsNumberedOrigin config firsts.now behind
        → result ≡ resting_place config behind lies }
{
    match lies {
        Some(BlockId::PageFile(block)) => Place::PageFile(block),
        Some(BlockId::Swap(_, slot)) => Place::Swap(slot),
        Some(BlockId::Section(..)) | None => origin_at(firsts, behind),
    }
}

/// The place of a page as what is behind it has it.
fn origin_at(firsts: &[u32], behind: Origin) -> Place
    requires { (config : Config) × IsNumberedOrigin config firsts.now behind }
    ensures { (config : Config) → IsNumberedOrigin config firsts.now behind
        → result ≡ origin_place config behind }
{
    match behind {
        Origin::Zero => Place::DemandZero,
        Origin::Section(s, i) => Place::SectionIndex(section_page(firsts, s, i)),
    }
}
