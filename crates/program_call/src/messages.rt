ghost use Rattle.std.specs.Prelude.{◌≡◌, [], Some, IfOk};
ghost use Rattle.command_messages.specs.Messages.{message_of};
ghost use Rattle.outside_io.specs.KeptIsLast.{all_is_handed_on};

use arrayvec::ArrayVec;
use command_ends::Wrong;
use command_messages::{LineFault, explain};
use outside_io::Sink;
use std::alloc::Global;
use vm_types::{Failed, NoMemory};

/// A text that grows as a sink. A write fails if memory runs out, and is counted.
#[derive(Drop)]
struct GrownText {
    bytes: Vec<u8>,
    faults: u64,
}

impl Sink for GrownText {
    ghost seen = { λ s. record { taken = Some s.bytes.items; kept = []; failures = s.faults; stalls = 0 } };

    fn write(&mut self, piece: &[u8]) -> Result<usize, Failed> {
        match self.bytes.extend_from_slice(piece) {
            Ok(()) => Ok(piece.len()),
            Err(_) => {
                self.faults = self.faults.saturating_add(1);
                Err(Failed)
            }
        }
    }

    fn flush(&mut self) -> Result<(), Failed> {
        Ok(())
    }

    ghost kept_is_last = { λ s. all_is_handed_on s.bytes.items };
}

/// The message that goes with a status, as `explain` says it: by what is wrong with the input or with the command
/// line, and by the bytes that were kept.
///
/// # Errors
/// `NoMemory` if memory ran out.
pub fn message_text(
    alloc: Global,
    status: u8,
    wrong: Option<Wrong>,
    line: Option<LineFault>,
    kept: &ArrayVec<u8, 80>,
) -> Result<Vec<u8>, NoMemory>
    ensures { IfOk result (λ text. text.items ≡ message_of wrong line kept.now.items status) }
{
    let mut text = GrownText {
        bytes: Vec::new(alloc),
        faults: 0,
    };
    explain(status, wrong, line, kept, &mut text);
    if text.faults != 0 {
        return Err(NoMemory);
    }
    Ok(text.bytes)
}
