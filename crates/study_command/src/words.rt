ghost use Rattle.std.specs.Prelude.{◌≡◌, ◌≤◌, ◌∷◌, [], IfOk, IfSome, IfNone, map};
ghost use Rattle.vm_types.specs.declared.limits.TheConstants.{MOST_STUDY_FRAMES};
ghost use Rattle.study_command.specs.declared.words.Study.{Study};
ghost use Rattle.study_command.specs.CommandLine.{AsksFor, AreValues, frames_named, process_named};

use command_options::option_values;
use std::alloc::Global;
use trace_words::decimal_within;
use vm_types::{MOST_STUDY_FRAMES, NoMemory, Proc};

static OPTIONS: [&str; 2] = ["process", "frames"];

/// Whose references to study, and with how many frames.
#[derive(Clone, Copy, Debug, PartialEq, Eq)]
pub struct Study {
    /// A process, A to P: its number is below 16.
    pub process: Proc,
    /// Frames, 1 to 1024.
    pub frames: u32,
}

// The number of the process, A to P.
fn process_of(word: &[u8]) -> Option<u32>
    ensures { result ≡ process_named word.now }
{
    match word {
        [byte] => match *byte {
            b'A'..=b'P' => Some(u32::from(*byte - b'A')),
            _ => None,
        },
        _ => None,
    }
}

// The number of frames.
fn frames_of(word: &[u8]) -> Option<u32>
    ensures value { result ≡ frames_named word.now }
    ensures range { IfSome result (λ frames. (1 ≤ frames) × (frames ≤ MOST_STUDY_FRAMES)) }
{
    match decimal_within(1, MOST_STUDY_FRAMES, word) {
        Ok(frames) => Some(frames),
        Err(_) => None,
    }
}

// The study that a letter and a number name.
fn study_from(letter: &[u8], number: &[u8]) -> Option<Study>
    ensures some { IfSome result (AreValues (letter.now ∷ number.now ∷ [])) }
    ensures none { IfNone result ((study : Study) → AreValues (letter.now ∷ number.now ∷ []) study → ⊥) }
    ensures range { IfSome result (λ study. (1 ≤ study.frames) × (study.frames ≤ MOST_STUDY_FRAMES)) }
{
    let process = process_of(letter)?;
    let frames = frames_of(number)?;
    Some(Study {
        process: Proc(process),
        frames,
    })
}

// The study that the values name.
fn study_by(values: &[&str]) -> Option<Study>
    ensures some { IfSome result (AreValues (map (λ value. value.now) values.now)) }
    ensures none { IfNone result ((study : Study) → AreValues (map (λ value. value.now) values.now) study → ⊥) }
    ensures range { IfSome result (λ study. (1 ≤ study.frames) × (study.frames ≤ MOST_STUDY_FRAMES)) }
{
    match values {
        [letter, number] => study_from(letter.as_bytes(), number.as_bytes()),
        _ => None,
    }
}

/// What the words behind `study` ask for: `--process` with a letter A to P and `--frames` with a number
/// of one to ten digits, 1 to 1024, each once and in either order, its value in the next word or in
/// the same one behind `=`. None if they are anything else. Fails only if memory runs out.
pub fn study_of<'a>(alloc: Global, words: &'a [&'a str]) -> Result<Option<Study>, NoMemory>
    ensures some { IfOk result (λ found. IfSome found (AsksFor (map (λ word. word.now) words.now))) }
    ensures none { IfOk result (λ found. IfNone found ((study : Study) → AsksFor (map (λ word. word.now) words.now) study → ⊥)) }
    ensures range { IfOk result (λ found. IfSome found (λ study. (1 ≤ study.frames) × (study.frames ≤ MOST_STUDY_FRAMES))) }
{
    match option_values(alloc, OPTIONS.as_slice(), words) {
        Ok(Some(values)) => Ok(study_by(values.as_slice())),
        Ok(None) => Ok(None),
        Err(fault) => Err(fault),
    }
}
