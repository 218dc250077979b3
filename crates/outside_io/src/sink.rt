ghost use Rattle.std.specs.Prelude.{◌≡◌, ◌≤◌, [], is_some, OnOk};
ghost use Rattle.std.specs.Io.{WritesAtMost};
ghost use Rattle.std.specs.Io.KnownBytes.{Keeps, WriteAppends};
ghost use Rattle.outside_io.specs.Causes.{HasCause};
ghost use Rattle.outside_io.specs.KeptIsLast.{IsLast};
ghost use Rattle.outside_io.specs.Stalls.{stalls_after};
ghost use Rattle.outside_io.specs.Views.{SinkView};

use vm_types::Failed;

/// Where output goes.
pub trait Sink {
    /// What is seen of it: the bytes taken, if they are known; the last of them, which it keeps and
    /// hasn't handed on yet; how many of its calls have failed; and how many writes of a piece that
    /// isn't empty took nothing. Neither count ever falls, and each stays at 2^64 - 1 once it is there.
    ghost seen: { Self → SinkView };

    /// Takes the piece's first bytes, and returns how many, at most its length.
    ///
    /// # Errors
    /// `Failed` only if the count of failures rose; nothing is taken then.
    fn write(&mut self, piece: &[u8]) -> Result<usize, Failed>
        ensures bound { WritesAtMost result piece.now }
        ensures bytes { WriteAppends (seen self.old).taken (seen self.new).taken result piece.now }
        ensures known { is_some (seen self.new).taken ≡ is_some (seen self.old).taken }
        ensures cause { HasCause (seen self.old).failures (seen self.new).failures result }
        ensures quiet { OnOk result ((seen self.new).failures ≡ (seen self.old).failures) }
        ensures stalls { (seen self.new).stalls ≡ stalls_after (seen self.old).stalls result piece.now }
        ensures stalls_later { (seen self.old).stalls ≤ (seen self.new).stalls };

    /// Hands on all bytes that are kept. What was taken stays the same.
    ///
    /// # Errors
    /// `Failed` only if the count of failures rose.
    fn flush(&mut self) -> Result<(), Failed>
        ensures bytes { Keeps (seen self.old).taken (seen self.new).taken }
        ensures known { is_some (seen self.new).taken ≡ is_some (seen self.old).taken }
        ensures handed_on { OnOk result ((seen self.new).kept ≡ []) }
        ensures cause { HasCause (seen self.old).failures (seen self.new).failures result }
        ensures quiet { OnOk result ((seen self.new).failures ≡ (seen self.old).failures) }
        ensures stalls { (seen self.new).stalls ≡ (seen self.old).stalls };

    /// What is kept is the end of what was taken.
    ghost kept_is_last: { (sink : Self) → IsLast (seen sink).kept (seen sink).taken };
}
