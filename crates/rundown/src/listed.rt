ghost use Rattle.std.specs.Prelude.{◌≡◌, ◌<◌};
ghost use Rattle.pager_policy.specs.Rundown.{holds_shared, is_shared_listed};
ghost use Rattle.vm_state.specs.History.{pager};

use disk_trait::Block;
use page_lists::ListName;
use vm_state::State;
use vm_types::{Page, Pfn};

/// Whether a frame of the configuration holds a shared page.
fn holds_shared<B: Block>(state: &State<B>, f: Pfn) -> bool
    requires { f.0 < state.now.config.frames }
    ensures { result ≡ holds_shared ((pager state.now).page f.0) }
{
    match state.frame(f).page {
        Some(page) => matches!(page, Page::Shared(..)),
        None => false,
    }
}

/// Whether a frame on the modified list holds a shared page. Looks at each frame on the list once at
/// most. Doesn't allocate.
pub fn is_shared_listed<B: Block>(state: &State<B>) -> bool
    ensures { result ≡ is_shared_listed (pager state.now) }
{
    state.run_law();
    let mut at = state.head(ListName::Modified);
    for _ in 0..state.modified_len() {
        match at {
            Some(f) => {
                if holds_shared(state, f) {
                    return true;
                }
                at = state.next(f);
            }
            None => return false,
        }
    }
    false
}
