use pte_forms::{BadPte, Place, Pte, from_word, to_word, words_are_apart};
use std::test::Fail;
use vm_types::Pfn;

/// Entries and their words, worked out by hand from the table of fields.
const WORDS: [(Pte, u32); 9] = [
    (
        Pte {
            prot: 4,
            place: Place::Valid {
                modify: true,
                frame: Pfn(5),
            },
        },
        0xa400_0005,
    ),
    (
        Pte {
            prot: 4,
            place: Place::DemandZero,
        },
        0x2000_0000,
    ),
    (
        Pte {
            prot: 15,
            place: Place::Transition(Pfn(3)),
        },
        0x7900_0003,
    ),
    (
        Pte {
            prot: 4,
            place: Place::Valid {
                modify: false,
                frame: Pfn(0),
            },
        },
        0xa000_0000,
    ),
    (
        Pte {
            prot: 0,
            place: Place::PageFile(0x1f_ffff),
        },
        0x021f_ffff,
    ),
    (
        Pte {
            prot: 2,
            place: Place::SectionIndex(7),
        },
        0x1300_0007,
    ),
    (
        Pte {
            prot: 3,
            place: Place::GlobalIndex(8),
        },
        0x1c00_0008,
    ),
    (
        Pte {
            prot: 15,
            place: Place::Swap(0),
        },
        0x7d00_0000,
    ),
    (
        Pte {
            prot: 15,
            place: Place::Valid {
                modify: true,
                frame: Pfn(0x1f_ffff),
            },
        },
        0xfc1f_ffff,
    ),
];

/// A sixth kind, the reserved code, a demand zero entry with a number, bits of the owner mode and of
/// software, and a valid entry with bit 25.
const NO_WORDS: [u32; 6] = [
    0x2700_0000,
    0x0900_0003,
    0x2000_0001,
    0xa080_0000,
    0x2220_0000,
    0xa200_0005,
];

#[test]
fn words_of_entries_both_ways(rt: HostRuntime) -> Result<(), Fail> {
    for (pte, word) in WORDS {
        assert_eq!(rt; from_word(word), Ok(pte));
    }
    assert_eq!(rt; to_word(WORDS[0].0), 0xa400_0005);
    assert_eq!(rt; to_word(WORDS[1].0), 0x2000_0000);
    assert_eq!(rt; to_word(WORDS[2].0), 0x7900_0003);
    for word in NO_WORDS {
        assert_eq!(rt; from_word(word), Err(BadPte));
    }
    words_are_apart();
    Ok(())
}
