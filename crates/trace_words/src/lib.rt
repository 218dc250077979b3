//! The words of a trace: how a line parts into words, and what a word may say, as a number, a name,
//! a protection code, an operation, the name of a service, a parameter, a block. What is wrong with a word is its cause.
#![tactic(auto)]

mod blocks;
mod cause;
mod hex_pairs;
mod letters;
mod names;
mod numbers;
mod ops;
mod params;
mod protections;
mod services;
mod split;
mod verbs;

pub use blocks::{BlockName, block_name};
pub use cause::Cause;
pub use hex_pairs::pairs;
pub use letters::letter;
pub use names::is_name;
pub use numbers::{decimal, decimal_within, hexadecimal};
pub use ops::{Access, OpName, op_name};
pub use params::{Param, param_of};
pub use protections::protection;
pub use services::{ServiceName, service_name};
pub use split::{Words, cut, is, next_word, parted, words_of};
pub use verbs::{Verb, verb_of};
