//! Page table entries and their words of 32 bits, both ways.
#![tactic(auto)]

mod laws;
mod pte;
mod word;

pub use laws::words_are_apart;
pub use pte::{BadPte, Place, Pte};
pub use word::{from_word, to_word};
