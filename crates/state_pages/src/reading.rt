ghost use Rattle.std.specs.Prelude.{◌≡◌, ℕ, ◌<◌, None, Some, length};
ghost use Rattle.std.specs.Option.{option_map};
ghost use Rattle.page_file.specs.Blocks.{Blocks};
ghost use Rattle.page_tables.specs.PageTables.{pte_in};
ghost use Rattle.pager_model.specs.Maps.{is_paged, page_behind};
ghost use Rattle.section_table.specs.SectionTable.{behind_of};
ghost use Rattle.pager_model.specs.InOk.{is_first_read};
ghost use Rattle.state_parts.specs.ChargedTable.{IsTableSet, kept_at};
ghost use Rattle.state_fits.specs.ReadBegins.{charged_in, charged_now, entry_held, file_charged, held_at, one_charge};
ghost use Rattle.state_pages.specs.Moves.{HasNumber, MayCharge, MayHold, number_by};

use global_pages::Globals;
use page_file::PageFile;
use page_tables::{Look, Tables};
use pte_forms::{Place, Pte};
use section_table::Sections;
use state_parts::{ChargedPage, ChargedPages};
use vm_types::{BlockId, Config, Origin, Page, Pfn, Proc, SectionKind};

/// The number of a shared page among the pages of all sections, by the numbers of the sections' first
/// pages; 0 for a private page.
pub fn global_number(firsts: &[u32], page: Page) -> u32
    requires { HasNumber firsts.now page }
    ensures { result ≡ number_by firsts.now page }
{
    match page {
        Page::Private(..) => 0,
        Page::Shared(s, i) => firsts[s.0 as usize] + i,
    }
}

/// The page that a process has at a page number (any numbers); none if it has none there.
pub fn mapped_page(config: &Config, sections: &Sections, p: Proc, vpn: u32) -> Option<Page>
    ensures { result ≡ option_map (page_behind config.now p.0 vpn) (behind_of sections.now p.0 vpn) }
{
    match sections.behind(p, vpn) {
        None => None,
        Some(origin) => Some(page_over(config, p, vpn, origin)),
    }
}

/// The page that a process has over what is behind it.
pub(crate) fn page_over(config: &Config, p: Proc, vpn: u32, origin: Origin) -> Page
    ensures { result ≡ page_behind config.now p.0 vpn origin }
{
    match origin {
        Origin::Zero => Page::Private(p, vpn),
        Origin::Section(s, i) => match config.sections.items().get(s.0 as usize) {
            Some(section) => match section.kind {
                SectionKind::Shared | SectionKind::Paged => Page::Shared(s, i),
                SectionKind::Crf => Page::Private(p, vpn),
            },
            None => Page::Private(p, vpn),
        },
    }
}

/// Whether the page has a block of the page file: a private one, or one of a section in the page file.
pub fn is_paged(config: &Config, page: Page) -> bool
    ensures { result ≡ is_paged config.now page }
{
    match page {
        Page::Private(..) => true,
        Page::Shared(s, _) => match config.sections.items().get(s.0 as usize) {
            Some(section) => match section.kind {
                SectionKind::Paged => true,
                SectionKind::Shared | SectionKind::Crf => false,
            },
            None => false,
        },
    }
}

/// A frame holds the page: a private page's entry shows the frame, and a shared page's global page,
/// which has the number, does.
pub fn hold_page(tables: &mut Tables, globals: &mut Globals, f: Pfn, page: Page, number: u32)
    requires { MayHold tables.old globals.old f.0 number page }
    ensures entries { (q w : ℕ) → pte_in tables.new q w ≡ entry_held page f.0 (pte_in tables.old) q w }
    ensures procs { tables.new.procs ≡ tables.old.procs }
    ensures globals { globals.new ≡ held_at page number f.0 globals.old }
{
    match page {
        Page::Private(p, vpn) => {
            let Look::Entry(pte) = tables.look(p, vpn) else {
                unreachable!();
            };
            let prot = pte.prot;
            let place = Place::Transition(f);
            tables.set(p, vpn, Pte { prot, place });
        }
        Page::Shared(..) => globals.set_frame(number, Some(f)),
    }
}

/// What is kept of a page that is charged now.
const FRESH: ChargedPage = ChargedPage {
    touched: false,
    lies: None,
    assigned: None,
};

/// Charges a private page that isn't charged yet, and a block of the page file for it. A page of a section
/// in the page file is charged when it gets its first frame.
#[tactic(auto, using(state_fits::proofs::PartsSet::table_same))]
pub(crate) fn charge_page(pages: &mut ChargedPages, file: &mut PageFile, page: Page)
    requires { MayCharge pages.old file.old page }
    ensures rows { IsTableSet pages.old pages.new page (charged_in page (kept_at pages.old page)) }
    ensures file { file.new ≡ file_charged page (kept_at pages.old page) file.old }
{
    if let Page::Private(..) = page {
        if pages.at(page).is_none() {
            file.charge().unwrap();
            pages.set(page, Some(FRESH));
        }
    }
}

/// Whether a read of the block is the first one of a copy on reference page.
pub fn first_read(page: Page, block: BlockId) -> bool
    ensures { result ≡ is_first_read (Some page) block }
{
    match (page, block) {
        (Page::Private(..), BlockId::Section(..)) => true,
        _ => false,
    }
}
