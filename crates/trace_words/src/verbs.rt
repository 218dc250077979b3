ghost use Rattle.std.specs.Prelude.{◌≡◌};
ghost use Rattle.trace_words.specs.VerbWords.{verb_of};

use crate::ops::{OpName, op_name};
use crate::services::{ServiceName, service_name};

/// What a request asks for, by its second word.
#[derive(Clone, Copy, Debug, PartialEq, Eq)]
pub enum Verb {
    /// A reference.
    Op(OpName),
    /// A service.
    Service(ServiceName),
}

/// The operation or the service of this name.
pub fn verb_of(word: &[u8]) -> Option<Verb>
    ensures { result ≡ verb_of word.now }
{
    match op_name(word) {
        Some(op) => Some(Verb::Op(op)),
        None => match service_name(word) {
            Some(service) => Some(Verb::Service(service)),
            None => None,
        },
    }
}
