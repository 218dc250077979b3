ghost use Rattle.std.specs.Prelude.{◌≡◌, ◌+◌, ◌<◌, ◌≤◌, length, take, drop, IfOk, OnOk, OnErr, IsSome};
ghost use Rattle.std.specs.Io.{ReadsAtMost};
ghost use Rattle.std.specs.Io.KnownBytes.{Keeps, Consumes, IsAtEnd, ReadConsumes};
ghost use Rattle.outside_io.specs.Causes.{HasCause};
ghost use Rattle.outside_io.specs.Views.{SourceView};

use vm_types::Failed;

/// Where input comes from.
pub trait Source {
    /// What is seen of it: the bytes left, if they are known, and how many of its calls have failed.
    /// The count never falls, and stays at 2^64 - 1 once it is there.
    ghost seen: { Self → SourceView };

    /// Puts the next bytes into the front of the buffer, and answers how many, at most the
    /// buffer's length. For a buffer that isn't empty 0 comes exactly at the end of the input.
    ///
    /// # Errors
    /// `Failed` only where the count of failures rose; the bytes left are then as before.
    fn read(&mut self, buf: &mut [u8]) -> Result<usize, Failed>
        ensures bound { ReadsAtMost result buf.new }
        ensures bytes { ReadConsumes (seen self.old).left (seen self.new).left result buf.new }
        ensures known { IsSome (seen self.old).left → IsSome (seen self.new).left }
        ensures cause { HasCause (seen self.old).failures (seen self.new).failures result }
        ensures quiet { OnOk result ((seen self.new).failures ≡ (seen self.old).failures) };
}

/// Puts the next bytes behind the first `held` bytes of the buffer, which stay, and answers how many:
/// at most as many as are behind them, 0 exactly at the end of the input.
///
/// # Errors
/// `Failed` only where the source's count of failures rose; the bytes left are then as before.
pub fn read_more<S: Source>(source: &mut S, buffer: &mut [u8], held: usize) -> Result<usize, Failed>
    requires { held < length buffer.old }
    ensures kept { take held buffer.new ≡ take held buffer.old }
    ensures bound { IfOk result (λ n. held + n ≤ length buffer.old) }
    ensures bytes { IfOk result (λ n. Consumes (S.seen source.old).left (S.seen source.new).left (take n (drop held buffer.new))) }
    ensures end { IfOk result (λ n. n ≡ 0 → IsAtEnd (S.seen source.new).left) }
    ensures failed { OnErr result (Keeps (S.seen source.old).left (S.seen source.new).left) }
    ensures known { IsSome (S.seen source.old).left → IsSome (S.seen source.new).left }
    ensures cause { HasCause (S.seen source.old).failures (S.seen source.new).failures result }
    ensures quiet { OnOk result ((S.seen source.new).failures ≡ (S.seen source.old).failures) }
{
    source.read(&mut buffer[held..])
}
