ghost use Rattle.std.specs.Prelude.{◌≡◌, ◌+◌, ◌^◌, ◌%◌, ◌≤◌, ◌<◌, ℕ, true, false, IsTrue, MatchBool};
ghost use Rattle.std.specs.Ordering.{nat_cmp};
ghost use Rattle.std.specs.BTreeSet.{contains};
ghost use Rattle.std.specs.List.{list_any};
ghost use Rattle.vm_types.specs.declared.limits.TheConstants.{PAGE_BYTES};
ghost use Rattle.trace_words.specs.Split.{listed};
ghost use Rattle.trace_lines.specs.Keys.{page_key};
ghost use Rattle.trace_lines.specs.Lookups.{is_inside};
ghost use Rattle.trace_lines.specs.Mappings.{overlaps, mapped, mapping, mapzero_line, mapsec_line};
ghost use Rattle.trace_lines.specs.Says.{said};
ghost use Rattle.trace_lines.specs.Seen.{IsSeen, HasKeyLimits};

use crate::breach::{Bound, Breach, marked, miscounted, ranged};
use crate::line::Line;
use crate::lookups::{aligned, is_inside, pages_at, process, section};
use crate::seen::{Seen, page_key};
use trace_words::{Cause, Words, decimal, protection};
use vm_types::{Addr, Config, Mapping, Origin, P0_PAGES, PAGE_BYTES, Proc, SecId};

// Whether one of the pages is mapped already.
fn has_page(seen: &Seen, proc: u32, first: u32, pages: u32) -> bool
    requires { first + pages < 2 ^ 32 }
    ensures { MatchBool result
        ((k : ℕ) × (k < pages) × (contains nat_cmp seen.now.pages (page_key proc (first + k)) ≡ true))
        ((k : ℕ) → k < pages → contains nat_cmp seen.now.pages (page_key proc (first + k)) ≡ false) }
{
    for k in 0..pages {
        if seen.pages.contains(&page_key(proc, first + k)) {
            return true;
        }
    }
    false
}

// Whether a page of the mapping is mapped already.
fn is_repeated(config: &Config, seen: &Seen, m: &Mapping) -> bool
    requires seen { IsSeen seen.now config.now }
    requires bounded { HasKeyLimits config.now }
    requires aligned { (m.now.at).0 % PAGE_BYTES ≡ 0 }
    requires some { 1 ≤ m.now.pages }
    requires inside { IsTrue (is_inside (m.now.at).0 m.now.pages) }
    ensures { result ≡ list_any (λ before. overlaps before m.now) config.now.maps }
{
    has_page(seen, m.proc.0, m.at.0 / PAGE_BYTES, m.pages)
}

// A mapping inside the regions, of pages that aren't mapped yet.
fn mapped<'a>(config: &Config, seen: &Seen, m: Mapping) -> Result<Line<'a>, Breach>
    requires seen { IsSeen seen.now config.now }
    requires aligned { (m.at).0 % PAGE_BYTES ≡ 0 }
    requires some { 1 ≤ m.pages }
    requires bounded { HasKeyLimits config.now }
    ensures { said result ≡ mapped config.now m }
{
    if !is_inside(m.at.0, m.pages) {
        return Err(Breach::bounded(3, Cause::OutOfRange, Bound::Regions));
    }
    if is_repeated(config, seen, &m) {
        return Err(Breach::at_word(3, Cause::Repeated));
    }
    Ok(Line::Map(m))
}

fn mapping(p: u32, at: u32, pages: u32, from: Origin, prot: u8) -> Mapping
    ensures { result ≡ mapping p at pages from prot }
{
    let (proc, at) = (Proc(p), Addr(at));
    Mapping {
        proc,
        at,
        pages,
        from,
        prot,
    }
}

pub(crate) fn mapzero<'a>(
    config: &Config,
    seen: &Seen,
    args: &Words<'a>,
) -> Result<Line<'a>, Breach>
    requires seen { IsSeen seen.now config.now }
    requires bounded { HasKeyLimits config.now }
    ensures { said result ≡ mapzero_line config.now (listed args.now) }
{
    let Words::Four(x, addr, n, prot) = args else {
        return Err(miscounted(2, 4, args));
    };
    let p = marked(2, Bound::Free, process(config.procs.items(), x))?;
    let at = marked(3, Bound::Multiple(PAGE_BYTES), aligned(PAGE_BYTES, addr))?;
    let pages = ranged(4, 1, P0_PAGES, n)?;
    let prot = marked(5, Bound::Free, protection(prot))?;
    mapped(config, seen, mapping(p, at, pages, Origin::Zero, prot))
}

pub(crate) fn mapsec<'a>(config: &Config, seen: &Seen, args: &Words<'a>) -> Result<Line<'a>, Breach>
    requires seen { IsSeen seen.now config.now }
    requires bounded { HasKeyLimits config.now }
    ensures { said result ≡ mapsec_line config.now (listed args.now) }
{
    let Words::Six(x, addr, n, name, first, prot) = args else {
        return Err(miscounted(2, 6, args));
    };
    let sections = config.sections.items();
    let p = marked(2, Bound::Free, process(config.procs.items(), x))?;
    let at = marked(3, Bound::Multiple(PAGE_BYTES), aligned(PAGE_BYTES, addr))?;
    let pages = ranged(4, 1, P0_PAGES, n)?;
    let s = marked(5, Bound::Free, section(sections, name))?;
    let room = pages_at(sections, s);
    let first = marked(6, Bound::Pages(room), decimal(first))?;
    let prot = marked(7, Bound::Free, protection(prot))?;
    if first as usize + pages as usize > room {
        return Err(Breach::bounded(6, Cause::OutOfRange, Bound::Pages(room)));
    }
    let from = Origin::Section(SecId(s as u32), first);
    mapped(config, seen, mapping(p, at, pages, from, prot))
}
