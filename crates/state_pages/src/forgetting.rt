ghost use Rattle.std.specs.Prelude.{◌≡◌, ◌<◌, ℕ, Some, [], ◌∷◌, length};
ghost use Rattle.page_file.specs.Blocks.{AreBlocks, IsAssignedBlock, assigned_blocks};
ghost use Rattle.pfn_database.specs.Frames.{IsConsistent, row_of};
ghost use Rattle.pfn_database.specs.Rows.{IsOneOf};
ghost use Rattle.state_fits.specs.Forgetting.{emptied_frame, frame_in_transition, released_block, uncharged_page};

use page_file::PageFile;
use pfn_database::Pfns;
use pte_forms::Place;
use state_parts::ChargedPage;
use vm_types::{FrameState, Pfn};

/// Empties the frame of a page whose entry is in transition: it heads the free list. At every other
/// place of a page no frame changes.
pub fn empty_frame(frames: &mut Pfns, place: Place)
    requires below { (f : ℕ) → frame_in_transition place ≡ Some f → f < length frames.old.rows }
    requires state { (f : ℕ) → frame_in_transition place ≡ Some f
        → IsOneOf (FrameState.Free ∷ FrameState.Modified ∷ FrameState.ReadError ∷ []) (row_of frames.old f).state }
    requires flights { (f : ℕ) → frame_in_transition place ≡ Some f → (row_of frames.old f).flights ≡ 0 }
    ensures emptied { frames.new ≡ emptied_frame (frame_in_transition place) frames.old }
{
    if let Place::Transition(f) = place {
        frames.empty_to_head(f);
    }
}

/// Charges one page less, if this was kept of a charged page, and makes its block free, if it has one.
pub fn uncharge(file: &mut PageFile, page: Option<ChargedPage>)
    requires assigned { (p : ChargedPage) (b : ℕ) → page ≡ Some p → p.assigned ≡ Some b → IsAssignedBlock file.old b }
    requires charged { (p : ChargedPage) → page ≡ Some p
        → assigned_blocks (released_block p.assigned file.old) < (released_block p.assigned file.old).charged }
    ensures uncharged { file.new ≡ uncharged_page page file.old }
{
    if let Some(page) = page {
        release(file, page.assigned);
        file.uncharge();
    }
}

/// Makes the block free, if there is one.
fn release(file: &mut PageFile, block: Option<u32>)
    requires { (b : ℕ) → block ≡ Some b → IsAssignedBlock file.old b }
    ensures { file.new ≡ released_block block file.old }
{
    if let Some(b) = block {
        file.release(b);
    }
}
