//! The word of a page table entry, with the modify mark of its frame.

ghost use Rattle.std.specs.Prelude.{◌≡◌, ℕ, ◌<◌, Some, length};
ghost use Rattle.pfn_database.specs.Frames.{row_of};
ghost use Rattle.pte_forms.specs.Word.{IsPte};
ghost use Rattle.state_pages.specs.MarkedWords.{word_marked};
ghost use Rattle.state_pages.specs.Shown.{frame_by};

use pfn_database::Pfns;
use pte_forms::{Place, Pte, to_word};

/// The word of an entry, with the modify mark of its frame if it is valid.
pub fn marked_word(frames: &Pfns, pte: Pte) -> u32
    requires entry { IsPte pte }
    requires frame { (f : ℕ) → frame_by pte.place ≡ Some f → f < length frames.now.rows }
    ensures { result ≡ word_marked (λ f. (row_of frames.now f).modify) pte }
{
    match pte.place {
        Place::Valid { frame, .. } => {
            let modify = frames.row(frame).modify;
            to_word(Pte {
                prot: pte.prot,
                place: Place::Valid { modify, frame },
            })
        }
        Place::DemandZero
        | Place::Transition(_)
        | Place::PageFile(_)
        | Place::SectionIndex(_)
        | Place::GlobalIndex(_)
        | Place::Swap(_) => to_word(pte),
    }
}
