ghost use Rattle.std.specs.Prelude.{◌≡◌, take};

use arrayvec::ArrayVec;
use vm_text::push_word;

/// Keeps at most the first 80 bytes of a line, in the place of what was kept before. Doesn't allocate.
pub fn keep_front(kept: &mut ArrayVec<u8, 80>, line: &[u8])
    ensures { kept.new.items ≡ take 80 line.now }
{
    let count = line.len().min(80);
    kept.clear();
    push_word(kept, &line[..count]);
}
