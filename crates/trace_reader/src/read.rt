ghost use Rattle.std.specs.Prelude.{◌≡◌, ◌+◌, ◌-◌, ◌<◌, ◌≤◌, ◌↔◌, length, take, drop, IfOk, IfErr, OnOk, OnErr, IfSome, IsSome, IsTrue};
ghost use Rattle.std.specs.Io.KnownBytes.{Keeps, Consumes, IsAtEnd};
ghost use Rattle.vm_types.specs.Configuration.{IsWellFormed};
ghost use Rattle.outside_io.specs.Causes.{HasCause};
ghost use Rattle.trace_lines.specs.Seen.{IsSeen};
ghost use Rattle.trace_reader.specs.Answer.{AnswersTrace, FaultsByTrace};
ghost use Rattle.trace_reader.specs.Changes.{start};
ghost use Rattle.trace_reader.specs.LineText.{IsTextOf};
ghost use Rattle.trace_reader.specs.Meaning.{at_end};
ghost use Rattle.trace_reader.specs.Stream.{IsReading, HasTaken, IsLineAtFault, IsFrontTaken, IsPieceTaken, IsAtFault, IsOpenFront, KeepsFaulty, KeepsLast, KeepsLine, Means};

use crate::draft::{Draft, Refused};
use crate::fault::TraceFault;
use arrayvec::ArrayVec;
use outside_io::{Source, keep_front, read_more};
use std::alloc::Global;
use trace_lines::{Breach, Place, plain_request};
use trace_words::{Cause, parted};
use vm_types::{Config, Failed, NoMemory};

// Bytes of the buffer that the source's pieces go to.
const ROOM: usize = 8192;

/// The configuration of a trace: the source is read to its end, in pieces of at most 8192 bytes, up
/// to the first faulty line, of which the first 80 bytes are kept in `kept`.
///
/// # Errors
/// `Line` is the first faulty line with the first rule that it breaks and the word that breaks it, as soon as the bytes taken
/// show it: at its end, or at its 256th byte. `Empty` if the text has no bytes. `Unfinished` if it has some
/// and ends without a faulty line and without `END`. `ReadFault` only if the source's count of failures rose, and no line taken before is
/// at fault. `NoMemory` if memory ran out; no line that was judged is at fault then: the bytes taken
/// show no fault, but for those of the last piece, at most 8192.
pub fn read_trace<S: Source>(
    alloc: Global,
    source: &mut S,
    kept: &mut ArrayVec<u8, 80>,
) -> Result<Config, TraceFault>
    ensures well_formed { IfOk result IsWellFormed }
    ensures text { IfSome (S.seen source.old).left (λ text. AnswersTrace result text (S.seen source.new).left) }
    ensures kept { IfErr result (λ fault. IsTextOf fault (S.seen source.old).left kept.new.items) }
    ensures known { IsSome (S.seen source.old).left → IsSome (S.seen source.new).left }
    ensures faults { FaultsByTrace result (S.seen source.old).failures (S.seen source.new).failures }
    ensures faults_later { (S.seen source.old).failures ≤ (S.seen source.new).failures }
{
    let mut buffer = vec![in alloc; 0; ROOM]?;
    let reader = Reader {
        alloc,
        draft: Draft::new(alloc),
        number: 1,
    };
    read_pieces(source, reader, buffer.as_mut_slice(), kept)
}

// Reads the text from the first line on, piece by piece.
fn read_pieces<S: Source>(
    source: &mut S,
    mut reader: Reader,
    buffer: &mut [u8],
    kept: &mut ArrayVec<u8, 80>,
) -> Result<Config, TraceFault>
    requires start { reader.draft.part ≡ start }
    requires first { reader.number ≡ 1 }
    requires seen { IsSeen reader.draft.seen reader.draft.part.config }
    requires room { length buffer.old ≡ 8192 }
    ensures well_formed { IfOk result IsWellFormed }
    ensures text { IfSome (S.seen source.old).left (λ text. AnswersTrace result text (S.seen source.new).left) }
    ensures kept { IfErr result (λ fault. IsTextOf fault (S.seen source.old).left kept.new.items) }
    ensures known { IsSome (S.seen source.old).left → IsSome (S.seen source.new).left }
    ensures faults { FaultsByTrace result (S.seen source.old).failures (S.seen source.new).failures }
    ensures faults_later { (S.seen source.old).failures ≤ (S.seen source.new).failures }
{
    let mut held = 0;
    loop {
        let Ok(count) = read_more(source, buffer, held) else {
            return Err(TraceFault::ReadFault);
        };
        if count == 0 {
            return reader.end(&buffer[..held], kept);
        }
        let filled = held + count;
        held = reader.take_piece(&buffer[..filled], kept)?;
        keep_last(buffer, filled, held);
    }
}

// Moves the last bytes of the filled ones to the front.
fn keep_last(buffer: &mut [u8], filled: usize, held: usize)
    requires filled { filled ≤ length buffer.old }
    requires held { held ≤ filled }
    ensures { take held buffer.new ≡ drop (filled - held) (take filled buffer.old) }
{
    buffer.copy_within(filled - held..filled, 0);
}

// What the lines taken so far declare, and the number of the next line.
#[derive(Drop)]
pub(crate) struct Reader {
    pub(crate) alloc: Global,
    pub(crate) draft: Draft,
    pub(crate) number: u32,
}

impl Reader {
    // Takes the next line, or keeps its first bytes if it is at fault.
    pub(crate) fn take_line(
        &mut self,
        line: &[u8],
        kept: &mut ArrayVec<u8, 80>,
    ) -> Result<(), TraceFault>
        requires { IsReading self.old.draft self.old.number }
        ensures ok { OnOk result (HasTaken self.old.draft self.old.number line.now self.new.draft self.new.number) }
        ensures err { IfErr result (IsLineAtFault self.old.draft.part self.old.number line.now) }
        ensures kept { IfErr result (KeepsLine self.old.number line.now kept.new.items) }
    {
        match self.draft.accept(self.alloc, self.number, line) {
            Ok(()) => {
                self.number += 1;
                Ok(())
            }
            Err(Refused::Fault(breach)) => {
                keep_front(kept, line);
                Err(TraceFault::Line(self.number, breach))
            }
            Err(Refused::NoMemory) => Err(TraceFault::NoMemory),
        }
    }

    // Takes the requests in the plain form that the text begins with, and says what is left behind them.
    fn take_requests<'a>(&mut self, text: &'a [u8]) -> Result<&'a [u8], NoMemory>
        requires { IsReading self.old.draft self.old.number }
        ensures ok { IfOk result (λ rest. IsFrontTaken self.old.draft.part self.old.number text.now self.new.draft self.new.number rest.now) }
        ensures err { IfErr result (λ _. IsOpenFront self.old.draft.part self.old.number text.now) }
    {
        let mut rest = text;
        while let Some((task, after)) = plain_request(self.number, &self.draft.part, rest) {
            self.draft.ask(task)?;
            self.number += 1;
            rest = after;
        }
        Ok(rest)
    }

    // Takes the whole lines of the piece, and says how many bytes are left behind them; or keeps the first
    // bytes of the line that is at fault.
    fn take_piece(&mut self, piece: &[u8], kept: &mut ArrayVec<u8, 80>) -> Result<usize, TraceFault>
        requires { IsReading self.old.draft self.old.number }
        ensures ok { IfOk result (IsPieceTaken self.old.draft.part self.old.number piece.now self.new.draft self.new.number) }
        ensures err { IfErr result (IsAtFault self.old.draft.part self.old.number piece.now) }
        ensures kept { IfErr result (KeepsFaulty self.old.number piece.now kept.new.items) }
    {
        let mut rest = self.take_requests(piece)?;
        while let Some((line, after)) = parted(rest, b'\n') {
            self.take_line(line, kept)?;
            rest = self.take_requests(after)?;
        }
        if rest.len() > 255 {
            keep_front(kept, rest);
            let breach = Breach::at_word(0, Cause::LineTooLong);
            return Err(TraceFault::Line(self.number, breach));
        }
        Ok(rest.len())
    }

    // The answer at the end of the text, with what stands behind the last whole line.
    fn end(mut self, rest: &[u8], kept: &mut ArrayVec<u8, 80>) -> Result<Config, TraceFault>
        requires { IsReading self.draft self.number }
        ensures means { Means self.number self.draft.part rest.now result (at_end self.number self.draft.part rest.now) }
        ensures well_formed { IfOk result IsWellFormed }
        ensures kept { IfErr result (KeepsLast self.number rest.now kept.new.items) }
    {
        if !rest.is_empty() {
            self.take_line(rest, kept)?;
        }
        match self.draft.part.place {
            Place::Ended => Ok(self.draft.part.config),
            _ if rest.is_empty() && self.number == 1 => Err(TraceFault::Empty),
            _ => Err(TraceFault::Unfinished),
        }
    }
}
