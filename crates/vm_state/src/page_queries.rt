ghost use Rattle.std.specs.Prelude.{◌≡◌, None, IfSome, IsSome, length, nat_eq};
ghost use Rattle.std.specs.Option.{option_map};
ghost use Rattle.pager_model.specs.Flat.{flat_refusal, is_page_file_full};
ghost use Rattle.pager_model.specs.Lookups.{entry_of};
ghost use Rattle.pager_model.specs.Maps.{page_number};
ghost use Rattle.pager_model.specs.Spoken.{flat_after};
ghost use Rattle.pager_model.specs.Lying.{lying_in};
ghost use Rattle.vm_state.specs.History.{pager};
ghost use Rattle.vm_state.specs.PageReadings.{IsGranted, IsKnown, backing_in, found_in, frame_of};
ghost use Rattle.state_pages.specs.Shown.{frame_number};

use crate::state::State;
use disk_trait::Block;
use state_pages::{
    Backing, Found, changes, entry_in, found_shown, frame_in, is_paged, is_touched_row, is_valid,
    own_backing, section_page, shared_backing, shared_home, some_waits,
};
use vm_types::{PAGE_BYTES, Page, Pfn, Proc, Ref, SecId, Why, allowed};

/// No reader allocates.
impl<B: Block> State<B> {
    /// What a process has at a page number (any numbers); none exactly if it isn't mapped.
    #[inline(always)]
    pub fn found(&self, p: Proc, vpn: u32) -> Option<Found>
        ensures { result ≡ found_in self.now.config (pager self.now) p.0 vpn }
    {
        let from = self.sections.behind(p, vpn);
        let entry = entry_in(self.tables.look(p, vpn));
        found_shown(&self.config, p, vpn, from, entry)
    }

    /// The frame of the valid entry of a process for a page number (any numbers); none if it has none.
    pub fn valid_frame(&self, p: Proc, vpn: u32) -> Option<Pfn>
        ensures { option_map frame_number result ≡ option_map frame_of (entry_of (pager self.now).valid p.0 vpn) }
    {
        frame_in(self.tables.look(p, vpn))
    }

    /// Where a page is. A shared one is of a section of the configuration.
    #[inline(always)]
    pub fn backing(&self, page: Page) -> Backing
        requires { IsKnown self.now.config page }
        ensures { result ≡ backing_in self.now.config (pager self.now) page }
    {
        match page {
            Page::Private(p, vpn) => self.private_backing(p, vpn),
            Page::Shared(s, i) => self.shared_backing(s, i),
        }
    }

    /// Where a private page is.
    #[inline(always)]
    fn private_backing(&self, p: Proc, vpn: u32) -> Backing
        ensures { result ≡ backing_in self.now.config (pager self.now) (Page.Private p vpn) }
    {
        let kept = self.pages.at(Page::Private(p, vpn));
        own_backing(kept, entry_in(self.tables.look(p, vpn)))
    }

    /// Where a shared page is.
    #[inline(always)]
    fn shared_backing(&self, s: SecId, i: u32) -> Backing
        requires { IsKnown self.now.config (Page.Shared s i) }
        ensures { result ≡ backing_in self.now.config (pager self.now) (Page.Shared s i) }
    {
        let number = section_page(&self.firsts, s, i);
        let frame = self.globals.frame(number);
        let kept = self.pages.at(Page::Shared(s, i));
        shared_backing(kept, shared_home(&self.config, s, i), frame)
    }

    /// The page that lies in the swap block of a slot of a process (any numbers); none if none does.
    pub fn swapped(&self, p: Proc, n: u32) -> Option<Page>
        ensures { result ≡ lying_in (pager self.now) p.0 n }
    {
        match self.swaps.at(p, n) {
            Some(vpn) => Some(Page::Private(p, vpn)),
            None => None,
        }
    }

    /// Why memory without frames and disk would refuse a reference of a process (any number), by what
    /// the process has at its page number; none if it would answer it. If each block of the page file
    /// is charged, and the page isn't touched, this looks at all pages that are charged.
    pub fn refusal(&self, p: Proc, r: Ref, there: Option<Found>) -> Option<Why>
        requires { there ≡ found_in self.now.config (pager self.now) p.0 (page_number (r.addr).0) }
        ensures value { result ≡ flat_refusal self.now.config (flat_after self.now.config self.now.past) p.0 r }
        ensures mapped { result ≡ None → IsSome there }
    {
        // The proof learns here that the state is one.
        let _ = self.journal.spare();
        match there {
            None => Some(Why::Unmapped),
            Some(found) => {
                if !allowed(found.prot, r.mode, changes(r.op)) {
                    Some(Why::Protected)
                } else if self.is_full(found.page) {
                    Some(Why::PageFileFull)
                } else {
                    None
                }
            }
        }
    }

    /// What the entry for the page of a reference of a process (any number) says alone: whether it is
    /// valid, if it allows the reference and not each block of the page file is charged. The reference
    /// isn't refused then. None says nothing.
    #[inline(always)]
    pub fn granted(&self, p: Proc, r: Ref) -> Option<bool>
        ensures { IfSome result (IsGranted self.now p.0 r) }
    {
        match entry_in(self.tables.look(p, r.addr.0 / PAGE_BYTES)) {
            None => None,
            Some(pte) => {
                if self.file.charged() < self.config.pagefile {
                    if allowed(pte.prot, r.mode, changes(r.op)) {
                        Some(is_valid(pte.place))
                    } else {
                        None
                    }
                } else {
                    None
                }
            }
        }
    }

    /// Whether the page needs a block of the page file, and each of its blocks has a touched page.
    fn is_full(&self, page: Page) -> bool
        ensures { result ≡ is_page_file_full self.now.config (flat_after self.now.config self.now.past) page }
    {
        if !is_paged(&self.config, page) {
            false
        } else if self.file.charged() < self.config.pagefile {
            false
        } else {
            !is_touched_row(self.pages.at(page)) && self.is_all_touched()
        }
    }

    /// Whether as many pages are touched as the page file has blocks.
    fn is_all_touched(&self) -> bool
        ensures { result ≡ nat_eq (length (flat_after self.now.config self.now.past).touched) self.now.config.pagefile }
    {
        let procs = self.config.procs.items().len() as u32;
        let sections = self.config.sections.items();
        self.file.charged() == self.config.pagefile && !some_waits(&self.pages, procs, sections)
    }
}
