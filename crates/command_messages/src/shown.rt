//! How bytes are shown.

ghost use Rattle.std.specs.Prelude.{◌≡◌, ◌+◌, ◌*◌, ◌≤◌, ◌++◌, length};
ghost use Rattle.std.specs.List.{flat_map};
ghost use Rattle.arrayvec.specs.ArrayVec.{array_vec_len};
ghost use Rattle.command_messages.specs.Shown.{shown};

use arrayvec::ArrayVec;
use vm_text::{push_hex, push_word};

// Adds a byte as it is shown.
fn push_byte<const CAP: usize>(out: &mut ArrayVec<u8, CAP>, byte: u8)
    requires { array_vec_len out.old + 4 ≤ CAP }
    ensures items { out.new.items ≡ out.old.items ++ shown byte }
    ensures len { array_vec_len out.new ≤ array_vec_len out.old + 4 }
{
    if (32..=126).contains(&byte) {
        out.push(byte);
    } else if byte == 9 {
        out.push(b' ');
    } else if byte != 13 {
        push_word(out, b"\\x");
        push_hex(out, u32::from(byte), 2);
    }
}

/// Adds the bytes as they are shown, at most four for each. Doesn't allocate.
pub(crate) fn push_shown<const CAP: usize>(out: &mut ArrayVec<u8, CAP>, bytes: &[u8])
    requires { array_vec_len out.old + 4 * length bytes.now ≤ CAP }
    ensures items { out.new.items ≡ out.old.items ++ flat_map shown bytes.now }
    ensures len { array_vec_len out.new ≤ array_vec_len out.old + 4 * length bytes.now }
{
    for byte in bytes {
        push_byte(out, *byte);
    }
}
