ghost use Rattle.std.specs.Prelude.{◌++◌, All, codes};
ghost use Rattle.vm_text.specs.Names.{page_text};
ghost use Rattle.vm_text.specs.Named.{IsPrintablePage};
ghost use Rattle.outside_io.specs.Writes.{Writes};
ghost use Rattle.run_words.specs.Text.{dirty_lines, ended};

use arrayvec::ArrayVec;
use command_ends::write_line;
use outside_io::{Sink, WriteFault};
use vm_text::{push_page, push_word};
use vm_types::{Page, Section};

fn print_dirty_page<K: Sink>(page: Page, names: &[Section], sink: &mut K) -> Result<(), WriteFault>
    requires { IsPrintablePage names.now page }
    ensures { Writes (K.seen sink.old) (K.seen sink.new) result (ended (codes "DIRTY " ++ page_text names.now page)) }
{
    let mut out = ArrayVec::new();
    push_word(&mut out, b"DIRTY ");
    push_page(&mut out, page, names);
    write_line(out, sink)
}

/// Writes a line for each of the pages, with the byte 10 that ends it in one write of a whole text.
/// `names` are the sections. Doesn't allocate.
///
/// # Errors
/// `Failed` only if the sink's count of failures rose. `NoneTaken` exactly if its count of
/// stalls rose. After either the sink has taken less than the lines, a prefix of them.
pub fn print_dirty<K: Sink>(
    dirty: &[Page],
    names: &[Section],
    sink: &mut K,
) -> Result<(), WriteFault>
    requires { All (IsPrintablePage names.now) dirty.now }
    ensures { Writes (K.seen sink.old) (K.seen sink.new) result (dirty_lines names.now dirty.now) }
{
    for page in dirty {
        print_dirty_page(*page, names, sink)?;
    }
    Ok(())
}
