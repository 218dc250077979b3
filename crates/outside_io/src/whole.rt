ghost use Rattle.std.specs.Prelude.{◌≡◌, ◌≤◌, is_some};
ghost use Rattle.outside_io.specs.WholeWrite.{TakesText, FaultsByWrite, stalls_by};

use crate::sink::Sink;

/// Why a text was not written whole.
#[derive(Clone, Copy, Debug, PartialEq, Eq)]
pub enum WriteFault {
    /// A call failed.
    Failed,
    /// A call took nothing.
    NoneTaken,
}

/// Writes the whole text, in as many calls as the sink needs. Takes no memory.
///
/// # Errors
/// `Failed` only where the sink's count of faults rose. `NoneTaken` exactly where its count of
/// stalls rose. After either the sink has taken less than the text, a prefix of it.
pub fn write_whole<K: Sink>(sink: &mut K, text: &[u8]) -> Result<(), WriteFault>
    ensures bytes { TakesText (K.seen sink.old).taken (K.seen sink.new).taken result text.now }
    ensures known { is_some (K.seen sink.new).taken ≡ is_some (K.seen sink.old).taken }
    ensures faults { FaultsByWrite (K.seen sink.old).failures (K.seen sink.new).failures result }
    ensures faults_later { (K.seen sink.old).failures ≤ (K.seen sink.new).failures }
    ensures stalls { (K.seen sink.new).stalls ≡ stalls_by (K.seen sink.old).stalls result }
    ensures stalls_later { (K.seen sink.old).stalls ≤ (K.seen sink.new).stalls }
{
    let mut done = 0;
    while done < text.len() {
        match sink.write(&text[done..]) {
            Ok(0) => return Err(WriteFault::NoneTaken),
            Ok(count) => done += count,
            Err(_) => return Err(WriteFault::Failed),
        }
    }
    Ok(())
}
