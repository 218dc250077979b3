ghost use Rattle.std.specs.Prelude.{◌≡◌, ◌<◌};
ghost use Rattle.vm_types.specs.Access.{is_allowed};

use crate::reference::Mode;

/// By code, how many modes from kernel on may read.
const READERS: [u8; 16] = [0, 0, 1, 1, 4, 2, 2, 2, 3, 3, 3, 3, 4, 4, 4, 4];

/// By code, how many modes from kernel on may write.
const WRITERS: [u8; 16] = [0, 0, 1, 0, 4, 2, 1, 0, 3, 2, 1, 0, 3, 2, 1, 0];

/// Whether a page with this protection code (below 16) may be read, or written, in the mode.
/// Source: VAX Architecture Reference Manual, protection codes; that code 1 allows nothing is this
/// project's own.
pub fn allowed(code: u8, mode: Mode, write: bool) -> bool
    requires { code < 16 }
    ensures { result ≡ is_allowed code mode write }
{
    let modes = if write {
        WRITERS[code as usize]
    } else {
        READERS[code as usize]
    };
    (mode as u8) < modes
}
