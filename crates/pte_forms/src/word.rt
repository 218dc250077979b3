ghost use Rattle.std.specs.Prelude.{◌≡◌, ◌<◌, ◌↔◌, IsErr, IfOk, IfNone, IfSome};
ghost use Rattle.pte_forms.specs.Word.{IsPte, IsWord, HasFields, valid_bit, kind_bits, number_bits, word_of};
ghost use Rattle.pte_forms.specs.declared.pte.Pte.{Pte};
ghost use Rattle.pte_forms.specs.declared.pte.Place.{Place};

use crate::pte::{BadPte, Place, Pte};
use vm_types::Pfn;

/// The word of an entry: the valid bit is bit 31, the protection code bits 30:27, the kind of place
/// bits 26:24 (in a valid entry bit 26 is the modify bit), and the number bits 20:0.
pub fn to_word(pte: Pte) -> u32
    requires { IsPte pte }
    ensures { result ≡ word_of pte }
{
    let (valid, kind, number) = fields_of(pte.place);
    (((valid << 4) | u32::from(pte.prot)) << 27) | (kind << 24) | number
}

/// The entry that a word stands for.
///
/// # Errors
/// `BadPte` exactly if the word stands for no entry.
pub fn from_word(word: u32) -> Result<Pte, BadPte>
    ensures form { IfOk result (λ pte. IsPte pte × (word_of pte ≡ word)) }
    ensures found { (pte : Pte) → IsPte pte → word_of pte ≡ word → result ≡ Ok pte }
    ensures bad { IsErr result ↔ (¬ IsWord word) }
{
    let prot = ((word >> 27) & 0xf) as u8;
    if prot == 1 || (word >> 21) & 0x7 != 0 {
        return Err(BadPte);
    }
    match place_of(word >> 31, (word >> 24) & 0x7, word & 0x1f_ffff) {
        Some(place) => Ok(Pte { prot, place }),
        None => Err(BadPte),
    }
}

/// The valid bit, the kind and the number of a place.
fn fields_of(place: Place) -> (u32, u32, u32)
    ensures { result ≡ (valid_bit place, kind_bits place, number_bits place) }
{
    match place {
        Place::Valid { modify, frame } => (1, u32::from(modify) << 2, frame.0),
        Place::DemandZero => (0, 0, 0),
        Place::Transition(frame) => (0, 1, frame.0),
        Place::PageFile(block) => (0, 2, block),
        Place::SectionIndex(page) => (0, 3, page),
        Place::GlobalIndex(page) => (0, 4, page),
        Place::Swap(slot) => (0, 5, slot),
    }
}

/// The place with this valid bit, kind and number.
fn place_of(valid: u32, kind: u32, number: u32) -> Option<Place>
    requires { valid < 2 }
    ensures some { IfSome result (λ place. HasFields place valid kind number) }
    ensures none { IfNone result ((place : Place) → ¬ HasFields place valid kind number) }
{
    let frame = Pfn(number);
    if valid == 1 {
        return match kind {
            0 => Some(Place::Valid {
                modify: false,
                frame,
            }),
            4 => Some(Place::Valid {
                modify: true,
                frame,
            }),
            _ => None,
        };
    }
    match kind {
        0 if number == 0 => Some(Place::DemandZero),
        1 => Some(Place::Transition(frame)),
        2 => Some(Place::PageFile(number)),
        3 => Some(Place::SectionIndex(number)),
        4 => Some(Place::GlobalIndex(number)),
        5 => Some(Place::Swap(number)),
        _ => None,
    }
}
