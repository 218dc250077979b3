ghost use Rattle.std.specs.Prelude.{◌≡◌};
ghost use Rattle.trace_words.specs.Split.{listed};
ghost use Rattle.trace_lines.specs.Headers.{version_of, version_line, long_line, frames_line, pagefile_line, param_line, bad_line};
ghost use Rattle.trace_lines.specs.Says.{said};
ghost use Rattle.trace_lines.specs.Seen.{IsSeen};

use crate::breach::{Bound, Breach, marked, miscounted, ranged};
use crate::line::Line;
use crate::seen::Seen;
use trace_words::{Cause, Words, decimal, param_of};
use vm_types::{Config, MOST_BLOCKS, Version};

// The version of this number, 1 or 2.
fn version_of(n: u32) -> Version
    ensures { result ≡ version_of n }
{
    if n == 1 { Version::One } else { Version::Two }
}

pub(crate) fn version<'a>(args: &Words<'a>) -> Result<Line<'a>, Breach>
    ensures { said result ≡ version_line (listed args.now) }
{
    let Words::One(n) = args else {
        return Err(miscounted(2, 1, args));
    };
    let n = ranged(2, 1, 2, n)?;
    Ok(Line::Version(version_of(n)))
}

pub(crate) fn long<'a>(args: &Words<'a>) -> Result<Line<'a>, Breach>
    ensures { said result ≡ long_line (listed args.now) }
{
    let Words::One(n) = args else {
        return Err(miscounted(2, 1, args));
    };
    ranged(2, 2, 2, n)?;
    Ok(Line::Version(Version::Long))
}

pub(crate) fn frames<'a>(config: &Config, args: &Words<'a>) -> Result<Line<'a>, Breach>
    ensures { said result ≡ frames_line config.now (listed args.now) }
{
    let Words::One(n) = args else {
        return Err(miscounted(2, 1, args));
    };
    let n = ranged(2, 8, config.version.most_frames(), n)?;
    Ok(Line::Frames(n))
}

pub(crate) fn pagefile<'a>(args: &Words<'a>) -> Result<Line<'a>, Breach>
    ensures { said result ≡ pagefile_line (listed args.now) }
{
    let Words::One(n) = args else {
        return Err(miscounted(2, 1, args));
    };
    let n = ranged(2, 1, MOST_BLOCKS, n)?;
    Ok(Line::PageFile(n))
}

pub(crate) fn param<'a>(given: &[bool; 14], args: &Words<'a>) -> Result<Line<'a>, Breach>
    ensures { said result ≡ param_line given.now (listed args.now) }
{
    let Words::Two(name, n) = args else {
        return Err(miscounted(2, 2, args));
    };
    let param = marked(2, Bound::Free, param_of(name))?;
    let n = ranged(3, param.least(), param.most(), n)?;
    if given[param.number()] {
        return Err(Breach::at_word(2, Cause::Repeated));
    }
    Ok(Line::Param(param, n))
}

pub(crate) fn bad<'a>(config: &Config, seen: &Seen, args: &Words<'a>) -> Result<Line<'a>, Breach>
    requires { IsSeen seen.now config.now }
    ensures { said result ≡ bad_line config.now (listed args.now) }
{
    let Words::One(f) = args else {
        return Err(miscounted(2, 1, args));
    };
    let below = Bound::BelowFrames(config.frames);
    let f = marked(2, below, decimal(f))?;
    if f >= config.frames {
        return Err(Breach::bounded(2, Cause::OutOfRange, below));
    }
    if seen.bad.contains(&u64::from(f)) {
        return Err(Breach::at_word(2, Cause::Repeated));
    }
    Ok(Line::Bad(f))
}
