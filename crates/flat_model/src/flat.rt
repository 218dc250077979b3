//! The flat machine: it answers references by its tables and the bytes of the pages that were
//! referred to, and scans lists for both.

ghost use Rattle.std.specs.Prelude.{◌≡◌, ◌&&◌, count_by, filter, nat_eq, IfOk};
ghost use Rattle.vm_types.specs.Configuration.{IsWellFormed};
ghost use Rattle.vm_types.specs.WellFormed.{IsWellFormedReference, IsWellFormedService};
ghost use Rattle.pager_model.specs.Flat.{flat_start, is_change};
ghost use Rattle.pager_model.specs.FlatService.{is_private_in};
ghost use Rattle.flat_model.specs.FlatMachine.{IsFlat, AnswersAsFlat, AnswersNew, ChangesAsFlat, IsStoredAt, is_kept, is_paged_in, is_touch};
ghost use Rattle.flat_model.specs.Usable.{IsOrigin};

use crate::behind::Behind;
use crate::lookups::{bytes_at, is_paged, page_at, tables_of};
use crate::page::apply;
use crate::tables::Tables;
use std::alloc::Global;
use vm_types::{
    Addr, Config, NoMemory, Op, Origin, PAGE_BYTES, Page, Proc, Ref, Reply, Section, Service, Why,
    allowed, is_same_page,
};

/// A page that was referred to, and its bytes.
#[derive(Clone, Copy, Debug)]
struct Stored {
    page: Page,
    bytes: [u8; 512],
}

/// The flat machine: maps, touched pages and bytes, with no frame, list, transfer or disk.
#[derive(Debug, Drop)]
pub struct Flat {
    tables: Tables,
    /// Each page at most once.
    stored: Vec<Stored>,
}

fn changes(op: Op) -> bool
    ensures { result ≡ is_change op }
{
    match op {
        Op::Read(_) => false,
        Op::Write(_, _) | Op::Add(_) => true,
    }
}

/// Whether a page is charged to the page file.
fn is_charged(sections: &[Section], page: Page) -> bool
    ensures { result ≡ is_paged_in sections.now page }
{
    match page {
        Page::Private(_, _) => true,
        Page::Shared(s, _) => is_paged(sections, s),
    }
}

/// Where a page is stored.
fn place_of(stored: &[Stored], page: Page) -> Option<usize>
    ensures { IsStoredAt stored.now page result }
{
    for (place, entry) in stored.iter().enumerate() {
        if is_same_page(entry.page, page) {
            return Some(place);
        }
    }
    None
}

/// How many charged pages are stored.
fn touched(sections: &[Section], stored: &[Stored]) -> usize
    ensures { result ≡ count_by (is_touch sections.now) stored.now }
{
    let mut count = 0;
    for entry in stored {
        if is_charged(sections, entry.page) {
            count += 1;
        }
    }
    count
}

/// Whether the page is a private one of a process's range.
fn is_own_in(page: Page, p: Proc, at: Addr, pages: u32) -> bool
    ensures { result ≡ is_private_in p.0 at.0 pages page }
{
    match page {
        Page::Private(q, v) => {
            let first = at.0 / PAGE_BYTES;
            p.0 == q.0 && first <= v && v - first < pages
        }
        Page::Shared(_, _) => false,
    }
}

/// Takes the entries of a process's range away.
fn forget(stored: &mut Vec<Stored>, p: Proc, at: Addr, pages: u32)
    ensures { stored.new.items ≡ filter (is_kept p.0 at.0 pages) stored.old.items }
{
    let count = stored.len();
    let mut kept = 0;
    for i in 0..count {
        let entry = stored[i];
        if !is_own_in(entry.page, p, at, pages) {
            stored[kept] = entry;
            kept += 1;
        }
    }
    stored.truncate(kept);
}

impl Flat {
    /// The flat machine of a configuration before its first request.
    ///
    /// # Errors
    /// `NoMemory` for want of memory.
    pub fn new(alloc: Global, config: &Config) -> Result<Flat, NoMemory>
        requires { IsWellFormed config.now }
        ensures { IfOk result (IsFlat config.now (flat_start config.now)) }
    {
        Ok(Flat {
            tables: tables_of(alloc, config)?,
            stored: Vec::new(alloc),
        })
    }

    /// Whether the page file has no block for this page, which is not stored yet.
    fn is_full(&self, page: Page) -> bool
        ensures { result ≡ (is_paged_in self.now.tables.sections page && nat_eq (count_by (is_touch self.now.tables.sections) self.now.stored.items) self.now.tables.pagefile) }
    {
        let sections = self.tables.sections.items();
        is_charged(sections, page)
            && touched(sections, &self.stored) == self.tables.pagefile as usize
    }

    /// Answers a reference whose page is not stored yet.
    fn answer_new(&mut self, page: Page, origin: Origin, r: Ref) -> Result<Reply, NoMemory>
        requires well_formed { IsWellFormedReference r }
        requires origin { IsOrigin self.old.tables.sections origin }
        ensures { AnswersNew self.old self.new page origin r result }
    {
        if self.is_full(page) {
            return Ok(Reply::Refused(Why::PageFileFull));
        }
        let mut bytes = bytes_at(self.tables.sections.items(), origin);
        let reply = apply(&mut bytes, r);
        self.stored.push(Stored { page, bytes })?;
        Ok(reply)
    }

    /// The reply to a reference of a process, as the flat machine of any configuration and state
    /// that these tables stand for gives it: the value read, that it was written, the old longword,
    /// or that it is refused as unmapped, protected, or by a full page file. No transfer fails. A
    /// refused reference changes nothing.
    ///
    /// # Errors
    /// `NoMemory` for want of memory; the machine then stands for the same state as before.
    pub fn answer(&mut self, p: Proc, r: Ref) -> Result<Reply, NoMemory>
        requires { IsWellFormedReference r }
        ensures told { AnswersAsFlat self.old self.new p.0 r result }
    {
        let number = r.addr.0 / PAGE_BYTES;
        let Some(behind) = self.tables.look(p, number) else {
            return Ok(Reply::Refused(Why::Unmapped));
        };
        if !allowed(behind.prot, r.mode, changes(r.op)) {
            return Ok(Reply::Refused(Why::Protected));
        }
        let origin = behind.origin;
        let page = page_at(self.tables.sections.items(), p, number, origin);
        match place_of(&self.stored, page) {
            Some(place) => Ok(apply(&mut self.stored[place].bytes, r)),
            None => self.answer_new(page, origin, r),
        }
    }

    /// Changes the maps, and forgets pages, as a service of a process that answers Good does: a creation
    /// maps demand zero pages, a deletion removes mappings and forgets private pages, a change of
    /// protection sets the codes; no other service changes anything. Doesn't allocate.
    pub fn change(&mut self, p: Proc, s: Service)
        requires { IsWellFormedService s }
        ensures { ChangesAsFlat self.old self.new p.0 s }
    {
        if !self.tables.has(p) {
            return;
        }
        match s {
            Service::Create { at, pages, prot } => {
                let zeros = Behind {
                    origin: Origin::Zero,
                    prot,
                };
                self.tables.set(p, at, pages, Some(zeros));
            }
            Service::Delete { at, pages } => {
                self.tables.set(p, at, pages, None);
                forget(&mut self.stored, p, at, pages);
            }
            Service::Protect { at, pages, prot } => self.tables.protect(p, at, pages, prot),
            Service::Lock { .. }
            | Service::Unlock { .. }
            | Service::Pin { .. }
            | Service::Unpin { .. }
            | Service::Purge { .. }
            | Service::Adjust { .. } => {}
        }
    }
}
