ghost use Rattle.std.specs.Prelude.{◌≡◌, OnOk, MatchResult};
ghost use Rattle.trace_lines.specs.Says.{meant, Bad, Map, Fail, Request};
ghost use Rattle.trace_lines.specs.Seen.{IsSeen};
ghost use Rattle.trace_reader.specs.Changes.{start, changed};
ghost use Rattle.trace_reader.specs.Drafts.{IsDraft, IsLineRefused};
ghost use Rattle.trace_reader.specs.Meaning.{next_line};
ghost use Rattle.trace_reader.specs.Right.{IsRightLine};

use crate::store::{add, add_range, blank, fails_of, write_bytes};
use std::alloc::Global;
use trace_lines::{
    Breach, DEFAULTS, Line, Part, Place, Seen, block_key, judge, page_key, plain_line,
};
use vm_types::{BlockId, Body, Config, Listed, Mapping, NoMemory, PAGE_BYTES, Task, Version};

/// Why a line wasn't taken.
#[derive(Clone, Copy, Debug)]
pub(crate) enum Refused {
    /// The first rule that it breaks, and the word that breaks it.
    Fault(Breach),
    /// It breaks none, and memory ran out.
    NoMemory,
}

impl From<Breach> for Refused {
    ghost use Rattle.std.specs.Prelude.{◌≡◌};
    ghost use Rattle.trace_reader.specs.declared.draft.Refused.TheVariants.{Fault};

    ghost from_gives = { λ breach e. e ≡ Fault breach };

    fn from(breach: Breach) -> Refused {
        Refused::Fault(breach)
    }
}

impl From<NoMemory> for Refused {
    ghost use Rattle.std.specs.Prelude.{◌≡◌};
    ghost use Rattle.trace_reader.specs.declared.draft.Refused.TheVariants as refused;

    ghost from_gives = { λ _ e. e ≡ refused.NoMemory };

    fn from(_error: NoMemory) -> Refused {
        Refused::NoMemory
    }
}

// What the lines so far declare, and what they name.
#[derive(Drop)]
pub(crate) struct Draft {
    pub part: Part,
    pub seen: Seen,
}

impl Draft {
    // Before the first line. Doesn't allocate.
    pub(crate) fn new(alloc: Global) -> Draft
        ensures part { result.part ≡ start }
        ensures seen { IsSeen result.seen result.part.config }
    {
        Draft {
            part: Part {
                place: Place::Version,
                config: Config {
                    version: Version::One,
                    frames: 0,
                    bad: Listed::new(alloc),
                    pagefile: 0,
                    params: DEFAULTS,
                    sections: Listed::new(alloc),
                    procs: Listed::new(alloc),
                    maps: Listed::new(alloc),
                    fails: Listed::new(alloc),
                    body: Body::new(alloc),
                },
                given: [false; 14],
            },
            seen: Seen::new(alloc),
        }
    }

    // Takes a line that says this.
    fn store(&mut self, alloc: Global, line: &Line) -> Result<(), NoMemory>
        requires seen { IsSeen self.old.seen self.old.part.config }
        requires right { IsRightLine self.old.part (meant line.now) }
        ensures part { OnOk result (self.new.part ≡ changed self.old.part (meant line.now)) }
        ensures seen { OnOk result (IsSeen self.new.seen self.new.part.config) }
    {
        match line {
            Line::Nothing => Ok(()),
            Line::Version(version) => {
                self.part.config.version = *version;
                self.part.place = Place::Frames;
                Ok(())
            }
            Line::Frames(n) => {
                self.part.config.frames = *n;
                self.part.place = Place::PageFile;
                Ok(())
            }
            Line::PageFile(n) => {
                self.part.config.pagefile = *n;
                self.part.place = Place::Declarations;
                Ok(())
            }
            Line::Param(param, n) => {
                param.set(&mut self.part.config.params, *n);
                self.part.given[param.number()] = true;
                Ok(())
            }
            Line::Bad(f) => self.store_bad(*f),
            Line::Section(name, kind, pages) => {
                let section = blank(alloc, name, *kind, *pages)?;
                self.part.config.sections.push(section)
            }
            Line::Data(s, at, bytes) => {
                let at = *at as usize;
                write_bytes(&mut self.part.config.sections, *s, at, bytes.as_slice());
                Ok(())
            }
            Line::Process(spec) => self.part.config.procs.push(*spec),
            Line::Map(m) => self.store_map(*m),
            Line::Fail(block, calls) => self.store_fail(alloc, *block, calls.as_slice()),
            Line::Body => {
                self.part.place = Place::Requests;
                Ok(())
            }
            Line::Request(task) => self.part.config.body.push(*task),
            Line::End => {
                self.part.place = Place::Ended;
                Ok(())
            }
        }
    }

    fn store_bad(&mut self, f: u32) -> Result<(), NoMemory>
        requires { IsSeen self.old.seen self.old.part.config }
        ensures part { OnOk result (self.new.part ≡ changed self.old.part (Bad f)) }
        ensures seen { OnOk result (IsSeen self.new.seen self.new.part.config) }
    {
        add(&mut self.seen.bad, u64::from(f))?;
        self.part.config.bad.push(f)
    }

    fn store_map(&mut self, m: Mapping) -> Result<(), NoMemory>
        requires seen { IsSeen self.old.seen self.old.part.config }
        requires right { IsRightLine self.old.part (Map m) }
        ensures part { OnOk result (self.new.part ≡ changed self.old.part (Map m)) }
        ensures seen { OnOk result (IsSeen self.new.seen self.new.part.config) }
    {
        let first = page_key(m.proc.0, m.at.0 / PAGE_BYTES);
        add_range(&mut self.seen.pages, first, m.pages)?;
        self.part.config.maps.push(m)
    }

    fn store_fail(&mut self, alloc: Global, block: BlockId, calls: &[u32]) -> Result<(), NoMemory>
        requires { IsSeen self.old.seen self.old.part.config }
        ensures part { OnOk result (self.new.part ≡ changed self.old.part (Fail block calls.now)) }
        ensures seen { OnOk result (IsSeen self.new.seen self.new.part.config) }
    {
        add(&mut self.seen.blocks, block_key(block))?;
        let fails = fails_of(alloc, block, calls)?;
        self.part.config.fails.push(fails)
    }

    // Takes a request.
    pub(crate) fn ask(&mut self, task: Task) -> Result<(), NoMemory>
        requires { IsSeen self.old.seen self.old.part.config }
        ensures part { OnOk result (self.new.part ≡ changed self.old.part (Request task)) }
        ensures seen { OnOk result (IsSeen self.new.seen self.new.part.config) }
    {
        self.part.config.body.push(task)
    }

    // Takes the line of this number, if it breaks no rule: it is judged before anything is kept.
    pub(crate) fn accept(&mut self, alloc: Global, number: u32, line: &[u8]) -> Result<(), Refused>
        requires seen { IsSeen self.old.seen self.old.part.config }
        requires draft { IsDraft self.old.part }
        ensures value { MatchResult result
            (λ _. next_line number self.old.part line.now ≡ Ok self.new.part)
            (λ e. IsLineRefused (next_line number self.old.part line.now) e) }
        ensures seen { OnOk result (IsSeen self.new.seen self.new.part.config) }
    {
        if let Some(task) = plain_line(number, &self.part, line) {
            self.ask(task)?;
            return Ok(());
        }
        let line = judge(number, &self.part, &self.seen, line)?;
        self.store(alloc, &line)?;
        Ok(())
    }
}
