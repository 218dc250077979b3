ghost use Rattle.std.specs.Prelude.{◌≡◌, if◌then◌else◌, true};
ghost use Rattle.std.specs.Option.{option_map};
ghost use Rattle.pager_model.specs.Flat.{is_change};
ghost use Rattle.state_pages.specs.Shown.{entry_shown, frame_number, frame_shown};

use page_tables::Look;
use pte_forms::{Place, Pte};
use vm_types::{Op, Pfn};

/// The entry that a look found.
pub fn entry_in(look: Look) -> Option<Pte>
    ensures { result ≡ entry_shown look }
{
    match look {
        Look::Absent => None,
        Look::Entry(pte) => Some(pte),
    }
}

/// The frame of the valid entry that a look found.
pub fn frame_in(look: Look) -> Option<Pfn>
    ensures { option_map frame_number result ≡ frame_shown look }
{
    match entry_in(look)?.place {
        Place::Valid { frame, .. } => Some(frame),
        _ => None,
    }
}

/// The modify mark after an operation.
pub fn marked(op: Op, modify: bool) -> bool
    ensures { result ≡ (if is_change op then true else modify) }
{
    match op {
        Op::Read(_) => modify,
        Op::Write(..) | Op::Add(_) => true,
    }
}
