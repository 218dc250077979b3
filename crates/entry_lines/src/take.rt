// The next word of a line, read.
ghost use Rattle.std.specs.Prelude.{◌≡◌, ◌^◌, ◌<◌, ◌≤◌, [], ◌∷◌, decimal};
ghost use Rattle.vm_types.specs.WellFormed.{IsCode, op_bytes};
ghost use Rattle.vm_text.specs.Named.{AreNames, IsPageStart, IsPlace, IsNamedPage, IsNamedBlock};
ghost use Rattle.vm_text.specs.Names.{process_name, address_text, frame_text, place_text, page_text, block_text};
ghost use Rattle.vm_text.specs.Readings.{Takes};
ghost use Rattle.vm_text.specs.References.{bare, op_text, value_text, why_word};
ghost use Rattle.vm_text.specs.Services.{protection_name};
ghost use Rattle.vm_text.specs.States.{state_word, status_word};
ghost use Rattle.vm_journal.specs.HasLine.{IsFrameNumber};

use crate::words::Words;
use vm_text::{
    bytes_of, read_block, read_count, read_op, read_page, read_place, read_process,
    read_protection, read_state, read_status, read_why,
};
use vm_types::{
    Addr, BlockId, FrameState, Mode, Op, PAGE_BYTES, Page, Pfn, Proc, ProcStatus, Section, Why,
};

pub(crate) fn take_number(words: &mut Words<'_>) -> Option<u64>
    ensures { Takes (λ n. n < 2 ^ 64) (λ n. decimal n ∷ []) words.old words.new result }
{
    words.next_number()
}

pub(crate) fn take_count(words: &mut Words<'_>) -> Option<u32>
    ensures { Takes (λ n. n < 2 ^ 32) (λ n. decimal n ∷ []) words.old words.new result }
{
    let word = words.next_word()?;
    read_count(word)
}

pub(crate) fn take_frame(words: &mut Words<'_>) -> Option<Pfn>
    ensures { Takes (λ f. IsFrameNumber f.0) (λ f. frame_text f.0 ∷ []) words.old words.new result }
{
    words.next_frame()
}

pub(crate) fn take_process(words: &mut Words<'_>, procs: u32) -> Option<Proc>
    requires { procs ≤ 16 }
    ensures { Takes (λ p. p.0 < procs) (λ p. process_name p.0 ∷ []) words.old words.new result }
{
    let word = words.next_word()?;
    read_process(word, procs)
}

pub(crate) fn take_address(words: &mut Words<'_>) -> Option<Addr>
    ensures { Takes (λ a. a.0 < 2 ^ 32) (λ a. address_text a.0 ∷ []) words.old words.new result }
{
    let address = words.next_hex(8)?;
    Some(Addr(address))
}

pub(crate) fn take_page_start(words: &mut Words<'_>) -> Option<Addr>
    ensures { Takes (λ a. IsPageStart a.0) (λ a. address_text a.0 ∷ []) words.old words.new result }
{
    let address = words.next_hex(8)?;
    if address % PAGE_BYTES != 0 {
        return None;
    }
    Some(Addr(address))
}

pub(crate) fn take_place(words: &mut Words<'_>, procs: u32) -> Option<(Proc, Addr)>
    requires { procs ≤ 16 }
    ensures { Takes (λ x. IsPlace procs x.0.0 x.1.0) (λ x. place_text x.0.0 x.1.0 ∷ []) words.old words.new result }
{
    let word = words.next_word()?;
    read_place(word, procs)
}

pub(crate) fn take_page(words: &mut Words<'_>, procs: u32, names: &[Section]) -> Option<Page>
    requires { AreNames procs names.now }
    ensures { Takes (IsNamedPage procs names.now) (λ page. page_text names.now page ∷ []) words.old words.new result }
{
    let word = words.next_word()?;
    read_page(word, procs, names)
}

pub(crate) fn take_block(words: &mut Words<'_>, procs: u32, names: &[Section]) -> Option<BlockId>
    requires { AreNames procs names.now }
    ensures { Takes (IsNamedBlock procs names.now) (λ block. block_text names.now block ∷ []) words.old words.new result }
{
    let word = words.next_word()?;
    read_block(word, procs, names)
}

pub(crate) fn take_state(words: &mut Words<'_>) -> Option<FrameState>
    ensures { Takes (λ _. Unit {0}) (λ state. state_word state ∷ []) words.old words.new result }
{
    let word = words.next_word()?;
    read_state(word)
}

pub(crate) fn take_status(words: &mut Words<'_>) -> Option<ProcStatus>
    ensures { Takes (λ _. Unit {0}) (λ status. status_word status ∷ []) words.old words.new result }
{
    let word = words.next_word()?;
    read_status(word)
}

pub(crate) fn take_why(words: &mut Words<'_>) -> Option<Why>
    ensures { Takes (λ _. Unit {0}) (λ why. why_word why ∷ []) words.old words.new result }
{
    let word = words.next_word()?;
    read_why(word)
}

pub(crate) fn take_protection(words: &mut Words<'_>) -> Option<u8>
    ensures { Takes IsCode (λ code. protection_name code ∷ []) words.old words.new result }
{
    let word = words.next_word()?;
    read_protection(word)
}

pub(crate) fn take_op(words: &mut Words<'_>) -> Option<(Mode, Op)>
    ensures { Takes (λ x. bare x.1 ≡ x.1) (λ x. op_text x.0 x.1 ∷ []) words.old words.new result }
{
    let word = words.next_word()?;
    read_op(word)
}

pub(crate) fn take_value(words: &mut Words<'_>, op: Op) -> Option<u32>
    ensures { Takes (λ value. value < 256 ^ op_bytes op) (λ value. value_text op value ∷ []) words.old words.new result }
{
    words.next_hex(2 * u32::from(bytes_of(op)))
}
