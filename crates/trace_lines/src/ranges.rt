ghost use Rattle.std.specs.Prelude.{◌≡◌, ◌^◌, ◌<◌, nat_lt};
ghost use Rattle.vm_types.specs.WellFormed.{width_bytes};
ghost use Rattle.trace_words.specs.Split.{listed};
ghost use Rattle.trace_lines.specs.Requests.{values, write_of, range_of, coded_range_of};

use crate::breach::{Bound, Breach, marked, miscounted, ranged};
use crate::lookups::{aligned, is_inside, process};
use trace_words::{Cause, Words, hexadecimal, protection};
use vm_types::{Config, P0_PAGES, PAGE_BYTES, Width};

/// A process, an address and a value.
#[derive(Clone, Copy, Debug)]
pub struct Written {
    pub proc: u32,
    pub at: u32,
    pub value: u32,
}

/// A process and a range of its pages.
#[derive(Clone, Copy, Debug)]
pub struct Range {
    pub proc: u32,
    pub at: u32,
    pub pages: u32,
}

/// A process, a range of its pages and a protection code.
#[derive(Clone, Copy, Debug)]
pub struct CodedRange {
    pub proc: u32,
    pub at: u32,
    pub pages: u32,
    pub prot: u8,
}

/// The bytes of a width.
pub(crate) fn bytes_of(width: Width) -> u32
    ensures value { result ≡ width_bytes width }
    ensures some { 0 < result }
{
    match width {
        Width::One => 1,
        Width::Two => 2,
        Width::Four => 4,
    }
}

/// Whether the value fits the width.
pub(crate) fn fits(width: Width, value: u32) -> bool
    ensures { result ≡ nat_lt value (256 ^ width_bytes width) }
{
    match width {
        Width::One => value < 0x100,
        Width::Two => value < 0x1_0000,
        Width::Four => true,
    }
}

// The values of the width.
fn values(width: Width) -> Bound
    ensures { result ≡ values width }
{
    match width {
        Width::One => Bound::Within(0, 0xff),
        Width::Two => Bound::Within(0, 0xffff),
        Width::Four => Bound::Within(0, 0xffff_ffff),
    }
}

/// What a write or an add names, by the words behind its name.
pub(crate) fn write_of(
    config: &Config,
    x: &[u8],
    width: Width,
    args: &Words,
) -> Result<Written, Breach>
    ensures { result ≡ write_of config.now x.now width (listed args.now) }
{
    let Words::Two(addr, value) = args else {
        return Err(miscounted(3, 2, args));
    };
    let proc = marked(1, Bound::Free, process(config.procs.items(), x))?;
    let bytes = bytes_of(width);
    let at = marked(3, Bound::Multiple(bytes), aligned(bytes, addr))?;
    let values = values(width);
    let value = marked(4, values, hexadecimal(value))?;
    if fits(width, value) {
        Ok(Written { proc, at, value })
    } else {
        Err(Breach::bounded(4, Cause::OutOfRange, values))
    }
}

/// The range of a service, by the words behind its name.
pub(crate) fn range_of(config: &Config, x: &[u8], args: &Words) -> Result<Range, Breach>
    ensures { result ≡ range_of config.now x.now (listed args.now) }
{
    let Words::Two(addr, n) = args else {
        return Err(miscounted(3, 2, args));
    };
    let proc = marked(1, Bound::Free, process(config.procs.items(), x))?;
    let at = marked(3, Bound::Multiple(PAGE_BYTES), aligned(PAGE_BYTES, addr))?;
    let pages = ranged(4, 1, P0_PAGES, n)?;
    if is_inside(at, pages) {
        Ok(Range { proc, at, pages })
    } else {
        Err(Breach::bounded(3, Cause::OutOfRange, Bound::Regions))
    }
}

/// The range and the code of a service, by the words behind its name.
pub(crate) fn coded_range_of(config: &Config, x: &[u8], args: &Words) -> Result<CodedRange, Breach>
    ensures { result ≡ coded_range_of config.now x.now (listed args.now) }
{
    let Words::Three(addr, n, prot) = args else {
        return Err(miscounted(3, 3, args));
    };
    let proc = marked(1, Bound::Free, process(config.procs.items(), x))?;
    let at = marked(3, Bound::Multiple(PAGE_BYTES), aligned(PAGE_BYTES, addr))?;
    let pages = ranged(4, 1, P0_PAGES, n)?;
    let prot = marked(5, Bound::Free, protection(prot))?;
    if is_inside(at, pages) {
        Ok(CodedRange {
            proc,
            at,
            pages,
            prot,
        })
    } else {
        Err(Breach::bounded(3, Cause::OutOfRange, Bound::Regions))
    }
}
