ghost use Rattle.std.specs.Prelude.{◌≡◌, ℕ, suc, false, ◌+◌, ◌*◌, ◌/◌, ◌^◌, ◌<◌, ◌≤◌, ◌&&◌, nat_lt, length, replicate, slice_set, sum, count_by, IfOk};
ghost use Rattle.vm_types.specs.declared.limits.TheConstants.{MOST_LONG_REQUESTS};
ghost use Rattle.paging_study.specs.Places.{one_if, flag_at, count_places};
ghost use Rattle.paging_study.specs.Marks.{AreGroupCounts};

use std::alloc::Global;
use vm_types::NoMemory;

/// Marks on places, and how many there are in each 8 of them and in each 128.
#[derive(Debug, Drop)]
pub(crate) struct Marks {
    /// Whether each place is marked.
    pub(crate) flags: Vec<bool>,
    /// How many of the first 8 places are marked, of the next 8, and so on.
    pub(crate) eights: Vec<u32>,
    /// The same for 128 places.
    pub(crate) blocks: Vec<u32>,
    ghost by_eight: { AreGroupCounts 8 flags.items eights.items },
    ghost by_block: { AreGroupCounts 128 flags.items blocks.items },
    ghost eights_len: { length flags.items ≡ length eights.items * 8 },
    ghost blocks_len: { length flags.items ≡ length blocks.items * 128 },
    ghost few: { length flags.items ≤ 2 ^ 23 },
}

impl Marks {
    /// As many places as there are in blocks enough for so many and one more, none marked.
    pub(crate) fn new(alloc: Global, places: usize) -> Result<Marks, NoMemory>
        requires { places ≤ MOST_LONG_REQUESTS }
        ensures { IfOk result (λ marks. marks.flags.items ≡ replicate ((places / 128 + 1) * 128) false) }
    {
        let count = places / 128 + 1;
        let flags = vec![in alloc; false; count * 128]?;
        let eights = vec![in alloc; 0; count * 16]?;
        let blocks = vec![in alloc; 0; count]?;
        Ok(Marks {
            flags,
            eights,
            blocks,
        })
    }

    /// Marks the place after `i`, or takes its mark away.
    pub(crate) fn set(&mut self, i: usize, flag: bool)
        requires { i < length self.old.flags.items }
        ensures { self.new.flags.items ≡ slice_set self.old.flags.items i flag }
    {
        let was = self.flags[i];
        let eight = changed(self.eights[i / 8], was, flag);
        let block = changed(self.blocks[i / 128], was, flag);
        self.flags[i] = flag;
        self.eights[i / 8] = eight;
        self.blocks[i / 128] = block;
    }

    /// How many places after the first one and up to the other are marked, after which none is.
    pub(crate) fn count(&self, first: usize, end: usize) -> usize
        requires order { first ≤ end }
        requires within { end < length self.now.flags.items }
        requires rest { (n : ℕ) → end ≤ n → flag_at self.now.flags.items (suc n) ≡ false }
        ensures { result ≡ count_places (λ n. nat_lt first n && flag_at self.now.flags.items n) end }
    {
        let eight = (first + 7) / 8;
        let block = (eight + 15) / 16;
        let past = end / 128 + 1;
        let near = marked(&self.flags[first..eight * 8]);
        let more = total(&self.eights[eight..block * 16]);
        let far = total(&self.blocks[block..past]);
        near + more as usize + far as usize
    }
}

/// A count after a place of its group changed from one mark to another.
fn changed(count: u32, was: bool, is: bool) -> u32
    requires has { one_if was ≤ count }
    requires few { count ≤ 128 }
    ensures { result + one_if was ≡ count + one_if is }
{
    count - u32::from(was) + u32::from(is)
}

/// How many are set.
fn marked(flags: &[bool]) -> usize
    ensures { result ≡ count_by (λ flag. flag) flags.now }
{
    flags.iter().filter(|flag| **flag).count()
}

/// The sum of these counts.
fn total(counts: &[u32]) -> u32
    requires { sum counts.now < 2 ^ 32 }
    ensures { result ≡ sum counts.now }
{
    counts.iter().sum()
}
