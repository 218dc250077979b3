ghost use Rattle.std.specs.Prelude.{◌≡◌, ◌+◌, ◌^◌, ◌<◌, ◌≤◌, ◌++◌};
ghost use Rattle.arrayvec.specs.ArrayVec.{array_vec_len};
ghost use Rattle.vm_text.specs.Named.{AreNames, IsNamedBlock, IsNamedPage, IsNamedSection, IsPageStart, IsPlace, IsPrintableBlock, IsPrintablePage, IsShortSection};
ghost use Rattle.vm_text.specs.Names.{process_name, seat_name, address_text, frame_text, section_name, section_page_text, place_text, slot_text, page_text, block_text};
ghost use Rattle.vm_text.specs.Readings.{Reads};

use crate::number::{push_count, push_hex, read_count, read_hex};
use crate::text::{after, cut, is, push_word};
use arrayvec::ArrayVec;
use vm_types::{Addr, BlockId, PAGE_BYTES, Page, Pfn, Proc, Seat, SecId, Section};

/// Adds a process's letter, A to P. Doesn't allocate.
pub fn push_process<const CAP: usize>(out: &mut ArrayVec<u8, CAP>, process: Proc)
    requires few { process.0 < 16 }
    requires room { array_vec_len out.old + 1 ≤ CAP }
    ensures items { out.new.items ≡ out.old.items ++ process_name process.0 }
    ensures len { array_vec_len out.new ≡ array_vec_len out.old + 1 }
{
    out.push(b'A' + process.0 as u8);
}

/// Adds a process's letter, or `MPW` for the writer's or `SWP` for the swapper's seat. Doesn't
/// allocate.
pub fn push_seat<const CAP: usize>(out: &mut ArrayVec<u8, CAP>, seat: Seat, procs: u32)
    requires few { procs ≤ 16 }
    requires seat { seat.0 ≤ procs + 1 }
    requires room { array_vec_len out.old + 3 ≤ CAP }
    ensures items { out.new.items ≡ out.old.items ++ seat_name procs seat.0 }
    ensures len { array_vec_len out.new ≤ array_vec_len out.old + 3 }
{
    if seat.0 < procs {
        push_process(out, Proc(seat.0));
    } else if seat.0 == procs {
        push_word(out, b"MPW");
    } else {
        push_word(out, b"SWP");
    }
}

/// Adds the eight digits of an address. Doesn't allocate.
pub fn push_address<const CAP: usize>(out: &mut ArrayVec<u8, CAP>, address: Addr)
    requires { array_vec_len out.old + 8 ≤ CAP }
    ensures items { out.new.items ≡ out.old.items ++ address_text address.0 }
    ensures len { array_vec_len out.new ≡ array_vec_len out.old + 8 }
{
    push_hex(out, address.0, 8);
}

/// Adds a frame, as `F3`. Doesn't allocate.
pub fn push_frame<const CAP: usize>(out: &mut ArrayVec<u8, CAP>, frame: Pfn)
    requires { array_vec_len out.old + 11 ≤ CAP }
    ensures items { out.new.items ≡ out.old.items ++ frame_text frame.0 }
    ensures len { array_vec_len out.new ≤ array_vec_len out.old + 11 }
{
    out.push(b'F');
    push_count(out, frame.0);
}

// A section's name, and the number of a page in it.
fn push_section_page<const CAP: usize>(
    out: &mut ArrayVec<u8, CAP>,
    section: SecId,
    page: u32,
    names: &[Section],
)
    requires named { IsShortSection names.now section.0 }
    requires room { array_vec_len out.old + 26 ≤ CAP }
    ensures items { out.new.items ≡ out.old.items ++ section_page_text names.now section.0 page }
    ensures len { array_vec_len out.new ≤ array_vec_len out.old + 26 }
{
    push_word(out, names[section.0 as usize].name.items());
    out.push(b'/');
    push_count(out, page);
}

/// Adds a process and an address, as `A/00000200`. Doesn't allocate.
pub fn push_place<const CAP: usize>(out: &mut ArrayVec<u8, CAP>, process: Proc, address: Addr)
    requires few { process.0 < 16 }
    requires room { array_vec_len out.old + 10 ≤ CAP }
    ensures items { out.new.items ≡ out.old.items ++ place_text process.0 address.0 }
    ensures len { array_vec_len out.new ≡ array_vec_len out.old + 10 }
{
    push_process(out, process);
    out.push(b'/');
    push_address(out, address);
}

/// Adds a page: a process and the page's first address, as `A/00000200`, or a section and the page's
/// number in it, as `LIB/3`. Doesn't allocate.
pub fn push_page<const CAP: usize>(out: &mut ArrayVec<u8, CAP>, page: Page, names: &[Section])
    requires named { IsPrintablePage names.now page }
    requires room { array_vec_len out.old + 26 ≤ CAP }
    ensures items { out.new.items ≡ out.old.items ++ page_text names.now page }
    ensures len { array_vec_len out.new ≤ array_vec_len out.old + 26 }
{
    match page {
        Page::Private(process, number) => push_place(out, process, Addr(PAGE_BYTES * number)),
        Page::Shared(section, number) => push_section_page(out, section, number, names),
    }
}

/// Adds a block: a section's as `S:LIB/3`, the page file's as `P:7`, a process's swap block as
/// `X:A/2`. Doesn't allocate.
pub fn push_block<const CAP: usize>(out: &mut ArrayVec<u8, CAP>, block: BlockId, names: &[Section])
    requires named { IsPrintableBlock names.now block }
    requires room { array_vec_len out.old + 28 ≤ CAP }
    ensures items { out.new.items ≡ out.old.items ++ block_text names.now block }
    ensures len { array_vec_len out.new ≤ array_vec_len out.old + 28 }
{
    match block {
        BlockId::Section(section, page) => {
            push_word(out, b"S:");
            push_section_page(out, section, page, names);
        }
        BlockId::PageFile(number) => {
            push_word(out, b"P:");
            push_count(out, number);
        }
        BlockId::Swap(process, slot) => {
            push_word(out, b"X:");
            push_process(out, process);
            out.push(b'/');
            push_count(out, slot);
        }
    }
}

/// The process of this letter, below `procs`, which is at most 16. Doesn't allocate.
pub fn read_process(word: &[u8], procs: u32) -> Option<Proc>
    requires { procs ≤ 16 }
    ensures { Reads (λ p. p.0 < procs) (λ p. process_name p.0) word.now result }
{
    match word {
        [letter] => {
            if *letter < b'A' || u32::from(*letter - b'A') >= procs {
                return None;
            }
            Some(Proc(u32::from(*letter - b'A')))
        }
        _ => None,
    }
}

/// The seat of this word: a process's letter, `MPW` or `SWP`. Doesn't allocate.
pub fn read_seat(word: &[u8], procs: u32) -> Option<Seat>
    requires { procs ≤ 16 }
    ensures { Reads (λ s. s.0 ≤ procs + 1) (λ s. seat_name procs s.0) word.now result }
{
    if is(word, b"MPW") {
        return Some(Seat(procs));
    }
    if is(word, b"SWP") {
        return Some(Seat(procs + 1));
    }
    let process = read_process(word, procs)?;
    Some(Seat(process.0))
}

/// The frame of this word, as `F3`. Doesn't allocate.
pub fn read_frame(word: &[u8]) -> Option<Pfn>
    ensures { Reads (λ f. f.0 < 2 ^ 32) (λ f. frame_text f.0) word.now result }
{
    let digits = after(word, b"F")?;
    let number = read_count(digits)?;
    Some(Pfn(number))
}

/// The address of eight digits, the first of its page. Doesn't allocate.
pub fn read_page_start(word: &[u8]) -> Option<Addr>
    ensures { Reads (λ a. IsPageStart a.0) (λ a. address_text a.0) word.now result }
{
    let address = read_hex(word, 8)?;
    if address % PAGE_BYTES != 0 {
        return None;
    }
    Some(Addr(address))
}

/// The process and the first address of a page, as `A/00000200`. Doesn't allocate.
pub fn read_place(word: &[u8], procs: u32) -> Option<(Proc, Addr)>
    requires { procs ≤ 16 }
    ensures { Reads (λ x. IsPlace procs x.0.0 x.1.0) (λ x. place_text x.0.0 x.1.0) word.now result }
{
    let (front, back) = cut(word, b'/')?;
    let process = read_process(front, procs)?;
    let address = read_page_start(back)?;
    Some((process, address))
}

// The section of this name.
fn read_section(word: &[u8], names: &[Section]) -> Option<SecId>
    ensures { Reads (λ s. IsNamedSection names.now s.0) (λ s. section_name names.now s.0) word.now result }
{
    let mut number: u32 = 0;
    for section in names {
        if is(word, section.name.items()) {
            return Some(SecId(number));
        }
        number = number.checked_add(1)?;
    }
    None
}

// A section, and the number of a page in it, as `LIB/3`.
fn read_section_page(word: &[u8], procs: u32, names: &[Section]) -> Option<(SecId, u32)>
    requires { AreNames procs names.now }
    ensures { Reads (λ x. IsNamedSection names.now x.0.0 × (x.1 < 2 ^ 32)) (λ x. section_page_text names.now x.0.0 x.1) word.now result }
{
    let (front, back) = cut(word, b'/')?;
    let section = read_section(front, names)?;
    let page = read_count(back)?;
    Some((section, page))
}

/// The page of this word: a process and the page's first address, as `A/00000200`, or a section and
/// the page's number in it, as `LIB/3`. Doesn't allocate.
pub fn read_page(word: &[u8], procs: u32, names: &[Section]) -> Option<Page>
    requires { AreNames procs names.now }
    ensures { Reads (IsNamedPage procs names.now) (page_text names.now) word.now result }
{
    if let Some((process, address)) = read_place(word, procs) {
        return Some(Page::Private(process, address.0 / PAGE_BYTES));
    }
    let (section, page) = read_section_page(word, procs, names)?;
    Some(Page::Shared(section, page))
}

// A process and a slot, as `A/2`.
fn read_slot(word: &[u8], procs: u32) -> Option<(Proc, u32)>
    requires { procs ≤ 16 }
    ensures { Reads (λ x. (x.0.0 < procs) × (x.1 < 2 ^ 32)) (λ x. slot_text x.0.0 x.1) word.now result }
{
    let (front, back) = cut(word, b'/')?;
    let process = read_process(front, procs)?;
    let slot = read_count(back)?;
    Some((process, slot))
}

/// The block of this word: a section's as `S:LIB/3`, the page file's as `P:7`, a process's swap block
/// as `X:A/2`. Doesn't allocate.
pub fn read_block(word: &[u8], procs: u32, names: &[Section]) -> Option<BlockId>
    requires { AreNames procs names.now }
    ensures { Reads (IsNamedBlock procs names.now) (block_text names.now) word.now result }
{
    if let Some(rest) = after(word, b"S:") {
        let (section, page) = read_section_page(rest, procs, names)?;
        return Some(BlockId::Section(section, page));
    }
    if let Some(rest) = after(word, b"P:") {
        let number = read_count(rest)?;
        return Some(BlockId::PageFile(number));
    }
    let rest = after(word, b"X:")?;
    let (process, slot) = read_slot(rest, procs)?;
    Some(BlockId::Swap(process, slot))
}
