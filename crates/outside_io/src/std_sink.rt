ghost use Rattle.std.specs.Prelude.{◌≡◌, ◌≢◌, ◌<◌, ◌≤◌, ◌++◌, ◌+◌, ◌-◌, [], length, min, take, ℕ, is_some, is_err, nat_lt, OnOk, OnErr, IsErr};
ghost use Rattle.std.specs.Io.{WritesAtMost};
ghost use Rattle.std.specs.Io.KnownBytes.{Keeps, WriteAppends, append_known};
ghost use Rattle.vm_types.specs.Counts.{raised};
ghost use Rattle.outside_io.specs.BytesLeft.{pending};
ghost use Rattle.outside_io.specs.Causes.{HasCause};
ghost use Rattle.outside_io.specs.Stalls.{stalls_after};
ghost use Rattle.outside_io.specs.KeptIsLast.{kept_is_last_known};

use crate::sink::Sink;
use crate::steady_write::SteadyWrite;
use std::io;
use std::io::ErrorKind;
use vm_types::Failed;

// Bytes of the buffer before the writer.
const ROOM: usize = 65536;

/// One of std's writers as a sink, with a buffer of 65536 bytes before it. The bytes taken are known if
/// the writer's type knows them: those that the writer holds, and then those that are kept in the buffer.
///
/// Once a call has failed, each later one fails too, and the writer isn't called again. So nothing
/// is written after a failed write, and dropping the sink writes nothing either.
#[derive(Drop)]
pub struct StdSink<W: SteadyWrite> {
    writer: W,
    buffer: [u8; ROOM],
    // so many of the buffer's first bytes are handed on, and so many were taken
    done: usize,
    filled: usize,
    faults: u64,
    error: Option<io::Error>,
    ghost within: { (done ≤ filled) × (filled ≤ length buffer) },
    ghost told: { is_some error ≡ nat_lt 0 faults },
}

impl<W: SteadyWrite> StdSink<W> {
    /// No call has failed yet, and nothing is kept. Doesn't allocate.
    pub fn new(writer: W) -> StdSink<W>
        ensures taken { (⟦<StdSink<W> as Sink>⟧.seen result).taken ≡ append_known (W.contents writer) [] }
        ensures kept { (⟦<StdSink<W> as Sink>⟧.seen result).kept ≡ [] }
        ensures faults { (⟦<StdSink<W> as Sink>⟧.seen result).failures ≡ 0 }
        ensures stalls { (⟦<StdSink<W> as Sink>⟧.seen result).stalls ≡ 0 }
    {
        StdSink {
            writer,
            buffer: [0; ROOM],
            done: 0,
            filled: 0,
            faults: 0,
            error: None,
        }
    }

    /// Why the first call that failed did so, in the writer's words; `None` if none failed. Doesn't
    /// allocate.
    pub fn error(&self) -> Option<io::Error>
        ensures { is_some result ≡ nat_lt 0 (⟦<StdSink<W> as Sink>⟧.seen self.now).failures }
    {
        self.error
    }

    // Counts a failed call.
    fn fail(&mut self, error: io::Error) -> Result<(), Failed>
        ensures err { IsErr result }
        ensures faults { self.new.faults ≡ raised self.old.faults }
        ensures writer { self.new.writer ≡ self.old.writer }
        ensures buffer { self.new.buffer ≡ self.old.buffer }
        ensures done { self.new.done ≡ self.old.done }
        ensures filled { self.new.filled ≡ self.old.filled }
    {
        self.error = self.error.or(Some(error));
        self.faults = self.faults.saturating_add(1);
        Err(Failed)
    }

    // Writes all that is kept to the writer. A writer that takes nothing has failed.
    fn empty_buffer(&mut self) -> Result<(), Failed>
        ensures bytes { Keeps (append_known (W.contents self.old.writer) (pending self.old.buffer self.old.done self.old.filled))
            (append_known (W.contents self.new.writer) (pending self.new.buffer self.new.done self.new.filled)) }
        ensures empty { OnOk result (self.new.filled ≡ 0) }
        ensures quiet { OnOk result (self.new.faults ≡ self.old.faults) }
        ensures failed { OnErr result (self.new.faults ≡ raised self.old.faults) }
        ensures later { self.old.faults ≤ self.new.faults }
        ensures still { self.old.faults ≢ 0 → self.new.writer ≡ self.old.writer }
        ensures no_more { self.old.faults ≢ 0 → IsErr result }
    {
        if let Some(error) = self.error {
            return self.fail(error);
        }
        while self.done < self.filled {
            let held = &self.buffer[..self.filled];
            match self.writer.write(&held[self.done..]) {
                Ok(0) => return self.fail(ErrorKind::WriteZero.into()),
                Ok(count) => self.done += count,
                Err(error) => return self.fail(error),
            }
        }
        self.done = 0;
        self.filled = 0;
        Ok(())
    }

    // Keeps the piece's first bytes, as many as there is room for; how many these are.
    #[tactic(auto, using(crate::proofs::Handing::kept_behind))]
    fn keep(&mut self, piece: &[u8]) -> usize
        ensures kept { pending self.new.buffer self.new.done self.new.filled ≡ pending self.old.buffer self.old.done self.old.filled ++ take result piece.now }
        ensures count { result ≡ min (length piece.now) (65536 - self.old.filled) }
        ensures faults { self.new.faults ≡ self.old.faults }
        ensures writer { self.new.writer ≡ self.old.writer }
    {
        let count = piece.len().min(ROOM - self.filled);
        put_at(&mut self.buffer, self.filled, &piece[..count]);
        self.filled += count;
        count
    }

    // The answer of the writer's own flush.
    fn flushed(&mut self, answer: io::Result<()>) -> Result<(), Failed>
        ensures same { is_err result ≡ is_err answer }
        ensures quiet { OnOk result (self.new.faults ≡ self.old.faults) }
        ensures failed { OnErr result (self.new.faults ≡ raised self.old.faults) }
        ensures writer { self.new.writer ≡ self.old.writer }
        ensures buffer { self.new.buffer ≡ self.old.buffer }
        ensures done { self.new.done ≡ self.old.done }
        ensures filled { self.new.filled ≡ self.old.filled }
    {
        match answer {
            Ok(()) => Ok(()),
            Err(error) => self.fail(error),
        }
    }
}

// Puts these bytes into the buffer, from a place on.
fn put_at(buffer: &mut [u8; ROOM], at: usize, piece: &[u8])
    requires { at + length piece.now ≤ 65536 }
    ensures { take (at + length piece.now) buffer.new ≡ take at buffer.old ++ piece.now }
{
    buffer[at..at + piece.len()].copy_from_slice(piece);
}

impl<W: SteadyWrite> Sink for StdSink<W> {
    ghost seen = { λ s. record { taken = append_known (W.contents s.writer) (pending s.buffer s.done s.filled); kept = pending s.buffer s.done s.filled; failures = s.faults; stalls = 0 } };

    fn write(&mut self, piece: &[u8]) -> Result<usize, Failed>
        ensures bound { WritesAtMost result piece.now }
        ensures bytes { WriteAppends (append_known (W.contents self.old.writer) (pending self.old.buffer self.old.done self.old.filled))
            (append_known (W.contents self.new.writer) (pending self.new.buffer self.new.done self.new.filled)) result piece.now }
        ensures known { is_some (append_known (W.contents self.new.writer) (pending self.new.buffer self.new.done self.new.filled))
            ≡ is_some (append_known (W.contents self.old.writer) (pending self.old.buffer self.old.done self.old.filled)) }
        ensures cause { HasCause self.old.faults self.new.faults result }
        ensures quiet { OnOk result (self.new.faults ≡ self.old.faults) }
        ensures stalls { 0 ≡ stalls_after 0 result piece.now }
        ensures stalls_later { 0 ≤ 0 }

        // Once a call has failed, each later one fails and doesn't call the writer.
        ensures failed { OnErr result (self.new.faults ≡ raised self.old.faults) }
        ensures no_more { self.old.faults ≢ 0 → IsErr result }
        ensures still { self.old.faults ≢ 0 → self.new.writer ≡ self.old.writer }
    {
        if self.faults > 0 || self.filled == ROOM {
            self.empty_buffer()?;
        }
        Ok(self.keep(piece))
    }

    fn flush(&mut self) -> Result<(), Failed>
        ensures bytes { Keeps (append_known (W.contents self.old.writer) (pending self.old.buffer self.old.done self.old.filled))
            (append_known (W.contents self.new.writer) (pending self.new.buffer self.new.done self.new.filled)) }
        ensures known { is_some (append_known (W.contents self.new.writer) (pending self.new.buffer self.new.done self.new.filled))
            ≡ is_some (append_known (W.contents self.old.writer) (pending self.old.buffer self.old.done self.old.filled)) }
        ensures handed_on { OnOk result (pending self.new.buffer self.new.done self.new.filled ≡ []) }
        ensures cause { HasCause self.old.faults self.new.faults result }
        ensures quiet { OnOk result (self.new.faults ≡ self.old.faults) }
        ensures stalls { ◌≡◌ {A = ℕ} 0 0 }

        // Once a call has failed, each later one fails and doesn't call the writer.
        ensures failed { OnErr result (self.new.faults ≡ raised self.old.faults) }
        ensures no_more { self.old.faults ≢ 0 → IsErr result }
        ensures still { self.old.faults ≢ 0 → self.new.writer ≡ self.old.writer }
    {
        self.empty_buffer()?;
        let answer = self.writer.flush();
        self.flushed(answer)
    }

    ghost kept_is_last = { λ s. kept_is_last_known (W.contents s.writer) (pending s.buffer s.done s.filled) };
}
