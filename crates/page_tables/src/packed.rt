//! How the tables are kept: a word for each place, which has the reserved protection code if the place
//! has no entry.

ghost use Rattle.std.specs.Prelude.{◌≡◌, ◌^◌, ◌<◌};
ghost use Rattle.page_tables.specs.Packed.{entry_by, place_by, word_in};

use pte_forms::{Place, Pte};
use vm_types::Pfn;

/// The word of a place without an entry.
pub const ABSENT: u32 = 1 << 27;

/// The word at a place, if it stands for an entry; none past the last place.
pub fn word_at(words: &[u32], place: usize) -> Option<u32>
    ensures { result ≡ word_in words.now place }
{
    if place < words.len() && words[place] != ABSENT {
        Some(words[place])
    } else {
        None
    }
}

/// The place that a valid bit, a kind and a number name. A word that the tables keep has no others.
fn place_by(valid: u32, kind: u32, number: u32) -> Place
    ensures { result ≡ place_by valid kind number }
{
    let frame = Pfn(number);
    if valid == 1 {
        let modify = kind == 4;
        return Place::Valid { modify, frame };
    }
    match kind {
        0 => Place::DemandZero,
        1 => Place::Transition(frame),
        2 => Place::PageFile(number),
        3 => Place::SectionIndex(number),
        4 => Place::GlobalIndex(number),
        _ => Place::Swap(number),
    }
}

/// The entry that a kept word stands for. No field is looked at that isn't asked for.
#[inline(always)]
pub fn entry_by(word: u32) -> Pte
    ensures { result ≡ entry_by word }
{
    Pte {
        prot: ((word >> 27) & 0xf) as u8,
        place: place_by(word >> 31, (word >> 24) & 0x7, word & 0x1f_ffff),
    }
}
