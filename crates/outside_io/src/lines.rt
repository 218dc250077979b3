ghost use Rattle.std.specs.Prelude.{◌≡◌, ◌<◌, ◌≤◌, true, false, length, IfOk, OnOk, IsSome, IfSome, OnErr};
ghost use Rattle.std.specs.Io.KnownBytes.{IsAtEnd, Keeps};
ghost use Rattle.outside_io.specs.Causes.{HasCause};
ghost use Rattle.outside_io.specs.HandedOut.{Gives, Takes, last_of};

use crate::source::Source;
use arrayvec::ArrayVec;
use memchr::memchr;
use vm_text::push_word;
use vm_types::Failed;

// Bytes of the buffer that the source's pieces go to.
const ROOM: usize = 4096;

/// What stands at the front of the bytes that are left.
#[derive(Clone, Copy, Debug, PartialEq, Eq)]
pub enum Line {
    /// A line of at most 255 bytes. The last line may end with the input, and isn't empty then.
    Text {
        /// Whether a byte 10 ended it.
        ended: bool,
    },
    /// A line of more than 255 bytes.
    Long,
    /// No byte is left.
    End,
}

/// The lines of a source.
#[derive(Drop)]
pub struct Lines<'a, S> {
    source: &'a mut S,
    buffer: [u8; ROOM],
    next: usize,
    filled: usize,
    ghost within: { (next ≤ filled) × (filled ≤ length buffer) },
}

impl<'a, S: Source> Lines<'a, S> {
    ghost use Rattle.outside_io.specs.BytesLeft.{bytes_left, pending, IsHeldTaken};

    /// The lines of all bytes that the source has left. Doesn't allocate.
    pub fn new(source: &'a mut S) -> Lines<'a, S>
        ensures same_reference { result.source.ghost_name ≡ source.entry.ghost_name }
        ensures left { bytes_left S.seen result ≡ (S.seen source.old).left }
        ensures faults { (S.seen result.source.now).failures ≡ (S.seen source.old).failures }
    {
        Lines {
            source,
            buffer: [0; ROOM],
            next: 0,
            filled: 0,
        }
    }

    // Reads the next piece of the source, once all bytes that were read are handed out.
    fn fill(&mut self) -> Result<(), Failed>
        requires { self.old.next ≡ self.old.filled }
        ensures same_reference { self.new.source.ghost_name ≡ self.old.source.ghost_name }
        ensures first { OnOk result (self.new.next ≡ 0) }
        ensures left { OnOk result (Keeps (bytes_left S.seen self.old) (bytes_left S.seen self.new)) }
        ensures end { OnOk result (self.new.filled ≡ 0 → IsAtEnd (S.seen self.new.source.now).left) }
        ensures failed { OnErr result (Keeps (bytes_left S.seen self.old) (bytes_left S.seen self.new)) }
        ensures known { IsSome (S.seen self.old.source.now).left → IsSome (S.seen self.new.source.now).left }
        ensures cause { HasCause (S.seen self.old.source.now).failures (S.seen self.new.source.now).failures result }
        ensures quiet { OnOk result ((S.seen self.new.source.now).failures ≡ (S.seen self.old.source.now).failures) }
    {
        match self.source.read(&mut self.buffer) {
            Ok(count) => {
                self.next = 0;
                self.filled = count;
                Ok(())
            }
            Err(failed) => Err(failed),
        }
    }

    // Reads the next piece of the source, if all bytes that were read are handed out; whether one is left now.
    #[tactic(auto, using(crate::proofs::Pending::keeps_same, crate::proofs::Pending::none_left))]
    fn ready(&mut self) -> Result<bool, Failed>
        ensures same_reference { self.new.source.ghost_name ≡ self.old.source.ghost_name }
        ensures left { Keeps (bytes_left S.seen self.old) (bytes_left S.seen self.new) }
        ensures more { IfOk result (λ more. more ≡ true → self.new.next < self.new.filled) }
        ensures end { IfOk result (λ more. more ≡ false → IsAtEnd (bytes_left S.seen self.new)) }
        ensures known { IsSome (S.seen self.old.source.now).left → IsSome (S.seen self.new.source.now).left }
        ensures cause { HasCause (S.seen self.old.source.now).failures (S.seen self.new.source.now).failures result }
        ensures quiet { OnOk result ((S.seen self.new.source.now).failures ≡ (S.seen self.old.source.now).failures) }
    {
        if self.next < self.filled {
            return Ok(true);
        }
        if let Err(failed) = self.fill() {
            return Err(failed);
        }
        if self.filled == 0 {
            return Ok(false);
        }
        Ok(true)
    }

    // Hands out, of the bytes that were read, a part of a line, and whether the byte 10 behind it, which is
    // then handed out too: all up to that byte, as far as there is room.
    fn take_held(&mut self, out: &mut ArrayVec<u8, 256>) -> bool
        requires { length out.old.items < 256 }
        ensures same_reference { self.new.source.ghost_name ≡ self.old.source.ghost_name }
        ensures source { self.new.source.now ≡ self.old.source.now }
        ensures left { (S.seen self.new.source.now).left ≡ (S.seen self.old.source.now).left }
        ensures taken { IsHeldTaken result (pending self.old.buffer self.old.next self.old.filled) out.old.items (pending self.new.buffer self.new.next self.new.filled) out.new.items }
        ensures few { length out.new.items ≤ 256 }
        ensures ended { result ≡ true → length out.new.items ≤ 255 }
        ensures more { self.old.next < self.old.filled → result ≡ false → length out.old.items < length out.new.items }
    {
        let held = &self.buffer[self.next..self.filled];
        let part = &held[..held.len().min(256 - out.len())];
        match memchr(b'\n', part) {
            Some(end) => {
                push_word(out, &part[..end]);
                self.next += end + 1;
                true
            }
            None => {
                push_word(out, part);
                self.next += part.len();
                false
            }
        }
    }

    /// Hands out the next line into the vector, which is emptied first. It takes the line with its byte
    /// 10, or the first 256 bytes of a longer line. Doesn't allocate.
    ///
    /// # Errors
    /// `Failed` only where the source's count of failures rose; the vector then has what was taken, a
    /// part of a line.
    #[tactic(auto, using(crate::proofs::Taking::further, crate::proofs::Taking::line_taken, crate::proofs::Taking::at_end, crate::proofs::Taking::cut_short, crate::proofs::Taking::longer_in_line))]
    pub fn next(&mut self, out: &mut ArrayVec<u8, 256>) -> Result<Line, Failed>
        ensures same_reference { self.new.source.ghost_name ≡ self.old.source.ghost_name }
        ensures gives { Gives result out.new.items }
        ensures takes { IfSome (bytes_left S.seen self.old) (λ bytes. Takes result bytes out.new.items (bytes_left S.seen self.new)) }
        ensures known { IsSome (S.seen self.old.source.now).left → IsSome (S.seen self.new.source.now).left }
        ensures cause { HasCause (S.seen self.old.source.now).failures (S.seen self.new.source.now).failures result }
        ensures quiet { OnOk result ((S.seen self.new.source.now).failures ≡ (S.seen self.old.source.now).failures) }
    {
        out.clear();
        while !out.is_full() {
            match self.ready() {
                Ok(true) => {}
                Ok(false) => return Ok(last_line(out)),
                Err(failed) => return Err(failed),
            }
            if self.take_held(out) {
                return Ok(Line::Text { ended: true });
            }
        }
        Ok(Line::Long)
    }
}

// What stands at the end of the bytes.
fn last_line(out: &ArrayVec<u8, 256>) -> Line
    ensures { result ≡ last_of out.now.items }
{
    if out.is_empty() {
        Line::End
    } else {
        Line::Text { ended: false }
    }
}
