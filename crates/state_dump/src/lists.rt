//! The page lists of a dump.

ghost use Rattle.std.specs.Prelude.{◌≡◌, IfOk, length};
ghost use Rattle.vm_state.specs.History.{pager};
ghost use Rattle.vm_state.specs.Readings.{listed};

use disk_trait::Block;
use page_lists::ListName;
use std::alloc::Global;
use vm_state::State;
use vm_types::NoMemory;

/// How many frames are on a list.
fn list_len<B: Block>(state: &State<B>, name: ListName) -> u32
    ensures { result ≡ length (listed (pager state.now) name) }
{
    match name {
        ListName::Free => state.free_len(),
        ListName::Modified => state.modified_len(),
    }
}

/// The frames on a list, from its head on.
pub(crate) fn list_frames<B: Block>(
    alloc: Global,
    state: &State<B>,
    name: ListName,
) -> Result<Vec<u32>, NoMemory>
    ensures { IfOk result (λ frames. frames.items ≡ listed (pager state.now) name) }
{
    let count = list_len(state, name);
    let mut frames = Vec::with_capacity(alloc, count as usize)?;
    let mut at = state.head(name);
    for _ in 0..count {
        match at {
            Some(f) => {
                frames.push(f.0)?;
                at = state.next(f);
            }
            None => return Ok(frames),
        }
    }
    Ok(frames)
}
