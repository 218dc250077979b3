//! The lines of the page lists.

ghost use Rattle.std.specs.Prelude.{◌≤◌, length};
ghost use Rattle.std.specs.List.{flat_map};
ghost use Rattle.vm_types.specs.declared.limits.TheConstants.{MOST_FRAMES};
ghost use Rattle.outside_io.specs.Writes.{Writes};
ghost use Rattle.dump_lines.specs.ListLines.{list_line, list_lines, on_line};

use arrayvec::ArrayVec;
use command_ends::{push_counted, write_line};
use outside_io::{Sink, WriteFault};
use vm_text::{push_frame, push_word};
use vm_types::Pfn;

fn print_head<K: Sink>(name: &[u8], count: u32, sink: &mut K) -> Result<(), WriteFault>
    requires { length name.now ≤ 8 }
    ensures { Writes (K.seen sink.old) (K.seen sink.new) result (list_line name.now count) }
{
    let mut out = ArrayVec::new();
    push_word(&mut out, b"LIST ");
    push_word(&mut out, name);
    push_counted(&mut out, b" ", count);
    write_line(out, sink)
}

fn print_member<K: Sink>(frame: u32, sink: &mut K) -> Result<(), WriteFault>
    ensures { Writes (K.seen sink.old) (K.seen sink.new) result (on_line frame) }
{
    let mut out = ArrayVec::new();
    push_word(&mut out, b"ON ");
    push_frame(&mut out, Pfn(frame));
    write_line(out, sink)
}

fn print_members<K: Sink>(members: &[u32], sink: &mut K) -> Result<(), WriteFault>
    ensures { Writes (K.seen sink.old) (K.seen sink.new) result (flat_map on_line members.now) }
{
    for frame in members {
        print_member(*frame, sink)?;
    }
    Ok(())
}

/// Writes the lines of the page list of this name, of at most eight letters.
pub(crate) fn print_list<K: Sink>(
    name: &[u8],
    members: &[u32],
    sink: &mut K,
) -> Result<(), WriteFault>
    requires short { length name.now ≤ 8 }
    requires few { length members.now ≤ MOST_FRAMES }
    ensures { Writes (K.seen sink.old) (K.seen sink.new) result (list_lines name.now members.now) }
{
    print_head(name, members.len() as u32, sink)?;
    print_members(members, sink)
}
