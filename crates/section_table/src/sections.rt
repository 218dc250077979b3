ghost use Rattle.std.specs.Prelude.{◌≡◌, ℕ, None, Some, IfOk, IsSome, length, map};
ghost use Rattle.vm_types.specs.declared.limits.TheConstants.{PRIVATE_PAGES};
ghost use Rattle.vm_types.specs.Behind.{first_behind};
ghost use Rattle.vm_types.specs.Configuration.{IsWellFormed};
ghost use Rattle.vm_types.specs.PagePlaces.{changed_at};

use crate::laying::lay_all;
use crate::part::{Part, parts_of, private_home, shared_home};
use page_rows::PageRows;
use std::alloc::Global;
use std::marker::Model;
use vm_types::{BlockId, Config, NoMemory, Origin, Page, Proc, page_place};

/// How many runs of 64 pages a process may map.
const RUNS: usize = 80;

/// What is behind each page of the processes: zeros, or a section's page. A page is numbered by its
/// first address divided by 512. Source: Kenah and Bate, "VAX/VMS Internals and Data Structures",
/// memory structures.
#[derive(Debug, Drop)]
pub struct Sections {
    procs: usize,
    parts: Vec<Part>,
    origins: PageRows<Origin>,
}

impl Model for Sections {
    ghost use Rattle.std.specs.Prelude.{◌≡◌, ◌*◌, length};
    ghost use Rattle.vm_types.specs.declared.limits.TheConstants.{PRIVATE_PAGES};
    ghost use Rattle.section_table.specs.SectionTable.{SectionTable};

    ghost Value = { SectionTable };

    ghost view = { λ s. record { procs = s.procs; parts = s.parts.items; origins = s.origins } };

    ghost invariant = { λ s. length s.origins ≡ s.procs * PRIVATE_PAGES };
}

impl Sections {
    ghost use Rattle.section_table.specs.SectionTable.{HasPage, behind_of, home_of, part_of};

    /// The table of a configuration: behind each page what its mapping says. Takes a step for each
    /// mapped page. No other call allocates.
    ///
    /// # Errors
    /// `NoMemory` if out of memory.
    pub fn new(alloc: Global, config: &Config) -> Result<Sections, NoMemory>
        requires { IsWellFormed config.now }
        ensures procs { IfOk result (λ s. s.procs ≡ length config.now.procs) }
        ensures parts { IfOk result (λ s. s.parts ≡ map part_of config.now.sections) }
        ensures behind { IfOk result (λ s. (p v : ℕ) → behind_of s p v ≡ first_behind config.now p v) }
    {
        let procs = config.procs.items().len();
        let parts = parts_of(alloc, config.sections.items())?;
        let mut origins = PageRows::new(alloc, procs * RUNS)?;
        lay_all(&mut origins, config.maps.items());
        Ok(Sections {
            procs,
            parts,
            origins,
        })
    }

    /// What is behind a page of a process (any numbers); none behind a page that isn't mapped.
    pub fn behind(&self, p: Proc, vpn: u32) -> Option<Origin>
        ensures { result ≡ behind_of self.now p.0 vpn }
    {
        self.origins.get(page_place(p, vpn)?)
    }

    /// The section block of a shared page, or the one behind a copy on reference page, touched or
    /// not; none for every other page.
    pub fn home(&self, page: Page) -> Option<BlockId>
        ensures { result ≡ home_of self.now page }
    {
        match page {
            Page::Private(p, vpn) => private_home(&self.parts, self.behind(p, vpn)),
            Page::Shared(s, number) => shared_home(&self.parts, s, number),
        }
    }

    /// Puts zeros behind a page of one of the processes.
    pub fn create(&mut self, p: Proc, vpn: u32)
        requires page { HasPage self.old p.0 vpn }
        requires absent { behind_of self.old p.0 vpn ≡ None }
        ensures changed { (q w : ℕ) → behind_of self.new q w ≡ changed_at (behind_of self.old) p.0 vpn (Some Origin.Zero) q w }
        ensures procs { self.new.procs ≡ self.old.procs }
        ensures parts { self.new.parts ≡ self.old.parts }
    {
        let place = page_place(p, vpn).unwrap();
        self.origins.set(place, Some(Origin::Zero));
    }

    /// Takes away what is behind a mapped page.
    pub fn forget(&mut self, p: Proc, vpn: u32)
        requires { IsSome (behind_of self.old p.0 vpn) }
        ensures changed { (q w : ℕ) → behind_of self.new q w ≡ changed_at (behind_of self.old) p.0 vpn None q w }
        ensures procs { self.new.procs ≡ self.old.procs }
        ensures parts { self.new.parts ≡ self.old.parts }
    {
        let index = page_place(p, vpn).unwrap();
        self.origins.set(index, None);
    }
}
