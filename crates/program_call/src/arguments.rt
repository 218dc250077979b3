ghost use Rattle.std.specs.Prelude.{◌≡◌, ℕ, List, [], ◌∷◌, None, Some, map, drop, IfOk, IfSome};
ghost use Rattle.std.specs.declared.option.Option.{Option};
ghost use Rattle.program_call.specs.Words.{TakesWord};
ghost use Rattle.std.specs.Option.{option_map};

use std::alloc::Global;
use std::env::{Env, FillError};
use vm_types::NoMemory;

/// The words of a command line.
pub trait Arguments {
    /// The words that are left, the program's own name first, if they are told.
    ghost left: { Self → Option (List (List ℕ)) };

    /// Leaves out the next word, whatever its bytes are. Doesn't allocate.
    fn skip_word(&mut self)
        ensures { IfSome (left self.old) (λ all. left self.new ≡ Some (drop 1 all)) };

    /// The bytes of the next word, which is then no longer left; `None` after the last word.
    ///
    /// # Errors
    /// `NoMemory` if memory ran out.
    fn next_word(&mut self, alloc: Global) -> Result<Option<Vec<u8>>, NoMemory>
        ensures { IfOk result (λ word. TakesWord (left self.old) (left self.new) (option_map (λ bytes. bytes.items) word)) };
}

/// The words of the process's own command line. It doesn't tell them.
#[derive(Drop)]
pub struct EnvArguments<'a, E: Env> {
    env: &'a E,
    number: usize,
}

impl<'a, E: Env> EnvArguments<'a, E> {
    /// All words are left. Doesn't allocate.
    pub fn new(env: &'a E) -> EnvArguments<'a, E> {
        EnvArguments { env, number: 0 }
    }
}

impl<E: Env> Arguments for EnvArguments<'_, E> {
    ghost left = { λ _. None };

    fn skip_word(&mut self) {
        self.number = self.number.saturating_add(1);
    }

    fn next_word(&mut self, alloc: Global) -> Result<Option<Vec<u8>>, NoMemory> {
        let mut room = 256usize;
        for _ in 0..48 {
            let mut bytes = vec![in alloc; 0u8; room]?;
            match self.env.arg(self.number, bytes.as_mut_slice()) {
                Ok(count) => {
                    bytes.truncate(count);
                    self.number = self.number.saturating_add(1);
                    return Ok(Some(bytes));
                }
                Err(FillError::NotPresent) => return Ok(None),
                Err(FillError::TooLong) => room = room.saturating_mul(2),
            }
        }
        Err(NoMemory)
    }
}

/// The words of a list, the program's own name first. It tells them.
#[derive(Drop)]
pub struct ListedArguments<'a> {
    words: &'a [&'a [u8]],
}

impl<'a> ListedArguments<'a> {
    /// All words of the list are left. Doesn't allocate.
    pub fn new(words: &'a [&'a [u8]]) -> ListedArguments<'a>
        ensures { ⟦<ListedArguments<'a> as Arguments>⟧.left result ≡ Some (map (λ word. word.now) words.now) }
    {
        ListedArguments { words }
    }
}

impl<'a> Arguments for ListedArguments<'a> {
    ghost left = { λ s. Some (map (λ word. word.now) s.words.now) };

    fn skip_word(&mut self) {
        let all: &'a [&'a [u8]] = self.words;
        if !all.is_empty() {
            self.words = &all[1..];
        }
    }

    fn next_word(&mut self, alloc: Global) -> Result<Option<Vec<u8>>, NoMemory> {
        let all: &'a [&'a [u8]] = self.words;
        if all.is_empty() {
            return Ok(None);
        }
        let bytes = Vec::from_slice(alloc, all[0])?;
        self.words = &all[1..];
        Ok(Some(bytes))
    }
}
