ghost use Rattle.std.specs.Prelude.{◌≡◌, [], ◌∷◌, ◌++◌, ◌&&◌, nat_lt, not, length, IfOk, OnOk, if◌then◌else◌};
ghost use Rattle.paging_study.specs.Dropped.{dropped_places};

use crate::intervals::ends_of;
use crate::string::PageString;
use std::alloc::Global;
use vm_types::NoMemory;

/// The places, from 1 and in order, at which an interval begins that is not kept: their pages are
/// referenced again, and don't keep their frames until then. `kept` has a flag for each of the pages.
///
/// # Errors
/// `NoMemory` if memory runs out.
pub fn dropped_places(
    alloc: Global,
    pages: &PageString,
    kept: &[bool],
) -> Result<Vec<u32>, NoMemory>
    requires { length kept.now ≡ length pages.now.pages.items }
    ensures { IfOk result (λ places. places.items ≡ dropped_places pages.now.pages.items kept.now) }
{
    let ends = ends_of(alloc, &pages.firsts)?;
    let mut places = Vec::new(alloc);
    for (i, end) in ends.iter().enumerate() {
        push_if_dropped(&mut places, *end, kept[i], i as u32 + 1)?;
    }
    Ok(places)
}

/// Adds the place, if an interval begins there, which has its end then, and it is not kept.
fn push_if_dropped(places: &mut Vec<u32>, end: u32, kept: bool, place: u32) -> Result<(), NoMemory>
    ensures { OnOk result (places.new.items ≡ places.old.items ++ (if nat_lt 0 end && not kept then place ∷ [] else [])) }
{
    if end > 0 && !kept {
        places.push(place)?;
    }
    Ok(())
}
