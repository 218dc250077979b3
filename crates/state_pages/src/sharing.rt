ghost use Rattle.std.specs.Prelude.{◌≡◌, ◌+◌, ◌^◌, ◌<◌, length, slice_index};
ghost use Rattle.vm_types.specs.declared.config.Config.{Config};
ghost use Rattle.state_fits.specs.Changes.{place_left, released_in, shared_in, unshared_in};
ghost use Rattle.state_fits.specs.ReadBegins.{held_in};
ghost use Rattle.state_pages.specs.SectionPages.{CanShare, HasShare, IsGlobal, IsNumbered};

use global_pages::Globals;
use pte_forms::Place;
use vm_types::{Page, Pfn, SecId};

/// The number of a section's page, from those of the sections' first pages.
pub fn section_page(firsts: &[u32], s: SecId, i: u32) -> u32
    requires section { s.0 < length firsts.now }
    requires small { slice_index firsts.now s.0 + i < 2 ^ 32 }
    ensures { result ≡ slice_index firsts.now s.0 + i }
{
    firsts[s.0 as usize] + i
}

/// The place of a page that stays in a frame, as an entry has it that isn't valid any more.
pub fn left_at(firsts: &[u32], f: Pfn, page: Page) -> Place
    requires { (config : Config) × IsNumbered config firsts.now page }
    ensures { (config : Config) → IsNumbered config firsts.now page
        → result ≡ place_left config f.0 page }
{
    match page {
        Page::Private(..) => Place::Transition(f),
        Page::Shared(s, i) => Place::GlobalIndex(section_page(firsts, s, i)),
    }
}

/// One valid entry less names the page, if it is shared.
pub fn unshare(globals: &mut Globals, firsts: &[u32], page: Page)
    requires { (config : Config) × IsNumbered config firsts.now page × HasShare config globals.old page }
    ensures { (config : Config) → IsNumbered config firsts.now page
        → globals.new ≡ unshared_in config page globals.old }
{
    if let Page::Shared(s, i) = page {
        globals.unshare(section_page(firsts, s, i));
    }
}

/// One valid entry more names the page, if it is shared.
pub fn share(globals: &mut Globals, firsts: &[u32], page: Page)
    requires { (config : Config) × IsNumbered config firsts.now page × CanShare config globals.old page }
    ensures { (config : Config) → IsNumbered config firsts.now page
        → globals.new ≡ shared_in config page globals.old }
{
    if let Page::Shared(s, i) = page {
        globals.share(section_page(firsts, s, i));
    }
}

/// The frame holds the page, if it is shared.
pub fn hold(globals: &mut Globals, firsts: &[u32], f: Pfn, page: Page)
    requires { (config : Config) × IsNumbered config firsts.now page × IsGlobal config globals.old page }
    ensures { (config : Config) → IsNumbered config firsts.now page
        → globals.new ≡ held_in config page f.0 globals.old }
{
    if let Page::Shared(s, i) = page {
        globals.set_frame(section_page(firsts, s, i), Some(f));
    }
}

/// No frame holds the page any more, if it is shared.
pub fn release(globals: &mut Globals, firsts: &[u32], page: Page)
    requires { (config : Config) × IsNumbered config firsts.now page × IsGlobal config globals.old page }
    ensures { (config : Config) → IsNumbered config firsts.now page
        → globals.new ≡ released_in config page globals.old }
{
    if let Page::Shared(s, i) = page {
        globals.set_frame(section_page(firsts, s, i), None);
    }
}
