ghost use Rattle.std.specs.Prelude.{◌≡◌, ◌≤◌, ℕ, List, [], ◌∷◌, IfOk, IfSome, IfNone, map};
ghost use Rattle.run_commands.specs.MakeLine.{AreNumbers, AsksToMake, IsMakeable, if_number};
ghost use Rattle.run_commands.specs.declared.make.Make.{Make};

use crate::make::Make;
use command_options::option_values;
use std::alloc::Global;
use trace_words::decimal_within;
use vm_types::{MOST_PROCESSES, MOST_REQUESTS, NoMemory};

static OPTIONS: [&str; 3] = ["seed", "procs", "refs"];

// The number, if it is in the range.
fn number_of(low: u32, high: u32, word: &[u8]) -> Option<u32>
    ensures value { result ≡ if_number low high word.now }
    ensures range { IfSome result (λ n. (low ≤ n) × (n ≤ high)) }
{
    match decimal_within(low, high, word) {
        Ok(n) => Some(n),
        Err(_) => None,
    }
}

// The made trace that three numbers name.
fn make_from(seed: &[u8], procs: &[u8], refs: &[u8]) -> Option<Make>
    ensures some { IfSome result (AreNumbers (seed.now ∷ procs.now ∷ refs.now ∷ [])) }
    ensures none { IfNone result ((make : Make) → AreNumbers (seed.now ∷ procs.now ∷ refs.now ∷ []) make → ⊥) }
    ensures range { IfSome result IsMakeable }
{
    let seed = number_of(0, 4_294_967_295, seed)?;
    let procs = number_of(1, MOST_PROCESSES, procs)?;
    let refs = number_of(1, MOST_REQUESTS, refs)?;
    Some(Make { seed, procs, refs })
}

// The made trace that the values name.
fn make_by(values: &[&str]) -> Option<Make>
    ensures some { IfSome result (AreNumbers (map (λ value. value.now) values.now)) }
    ensures none { IfNone result ((make : Make) → AreNumbers (map (λ value. value.now) values.now) make → ⊥) }
    ensures range { IfSome result IsMakeable }
{
    match values {
        [seed, procs, refs] => make_from(seed.as_bytes(), procs.as_bytes(), refs.as_bytes()),
        _ => None,
    }
}

/// What the words behind `make` ask for: `--seed` with a number from 0 to 4294967295, `--procs` with
/// one from 1 to 16 and `--refs` with one from 1 to 100000, each of one to ten digits, each option once
/// and in any order, its value in the next word or in the same one behind `=`. None if they are
/// anything else. Fails only if memory runs out.
pub fn make_of<'a>(alloc: Global, words: &'a [&'a str]) -> Result<Option<Make>, NoMemory>
    ensures some { IfOk result (λ found. IfSome found (AsksToMake (map (λ word. word.now) words.now))) }
    ensures none { IfOk result (λ found. IfNone found ((make : Make) → AsksToMake (map (λ word. word.now) words.now) make → ⊥)) }
    ensures range { IfOk result (λ found. IfSome found IsMakeable) }
{
    match option_values(alloc, OPTIONS.as_slice(), words) {
        Ok(Some(values)) => Ok(make_by(values.as_slice())),
        Ok(None) => Ok(None),
        Err(fault) => Err(fault),
    }
}
