//! The bytes of one page.

ghost use Rattle.std.specs.Prelude.{◌≡◌, ℕ, ◌+◌, ◌<◌, ◌≤◌, ◌^◌, ◌++◌, length, take, drop};
ghost use Rattle.vm_types.specs.declared.limits.TheConstants.{PAGE_BYTES};
ghost use Rattle.vm_types.specs.declared.reference.Width.TheVariants.{One, Two, Four};
ghost use Rattle.vm_types.specs.WellFormed.{IsWellFormedReference, width_bytes};
ghost use Rattle.vm_text.specs.References.{IsReplyTo};
ghost use Rattle.pager_model.specs.Flat.{number_at, with_number, reply_from, bytes_after, offset_in_page};

use vm_types::{Op, PAGE_BYTES, Ref, Reply, Width};

/// The byte at an offset.
fn byte_at(page: &[u8], offset: usize) -> u32
    requires { offset < length page.now }
    ensures value { result ≡ number_at One page.now offset }
    ensures fits { result < 256 }
{
    u32::from(page[offset])
}

/// The longword at an offset, least significant byte first.
fn longword_at(page: &[u8], offset: usize) -> u32
    requires { offset + 4 ≤ length page.now }
    ensures { result ≡ number_at Four page.now offset }
{
    u32::from_le_bytes([
        page[offset],
        page[offset + 1],
        page[offset + 2],
        page[offset + 3],
    ])
}

/// The word at an offset, least significant byte first.
fn word_at(page: &[u8], offset: usize) -> u32
    requires { offset + 2 ≤ length page.now }
    ensures value { result ≡ number_at Two page.now offset }
    ensures fits { result < 65536 }
{
    u32::from(u16::from_le_bytes([page[offset], page[offset + 1]]))
}

/// Puts bytes at an offset.
fn put(page: &mut [u8], offset: usize, bytes: &[u8])
    requires { offset + length bytes.now ≤ length page.old }
    ensures { page.new ≡ take offset page.old ++ bytes.now ++ drop (offset + length bytes.now) page.old }
{
    page[offset..offset + bytes.len()].copy_from_slice(bytes);
}

/// Puts a byte at an offset.
fn put_byte(page: &mut [u8], offset: usize, n: u32)
    requires { (offset < length page.old) × (n < 256) }
    ensures { page.new ≡ with_number One page.old offset n }
{
    put(page, offset, &(n as u8).to_le_bytes());
}

/// Puts a longword at an offset, least significant byte first.
fn put_longword(page: &mut [u8], offset: usize, n: u32)
    requires { offset + 4 ≤ length page.old }
    ensures { page.new ≡ with_number Four page.old offset n }
{
    put(page, offset, &n.to_le_bytes());
}

/// Puts a word at an offset, least significant byte first.
fn put_word(page: &mut [u8], offset: usize, n: u32)
    requires { (offset + 2 ≤ length page.old) × (n < 65536) }
    ensures { page.new ≡ with_number Two page.old offset n }
{
    put(page, offset, &(n as u16).to_le_bytes());
}

/// The number of a width at an offset.
fn number(page: &[u8], width: Width, offset: usize) -> u32
    requires { offset + width_bytes width ≤ length page.now }
    ensures value { result ≡ number_at width page.now offset }
    ensures fits { result < 256 ^ width_bytes width }
{
    match width {
        Width::One => byte_at(page, offset),
        Width::Two => word_at(page, offset),
        Width::Four => longword_at(page, offset),
    }
}

/// Puts a number of a width at an offset.
fn put_number(page: &mut [u8], width: Width, offset: usize, n: u32)
    requires { (offset + width_bytes width ≤ length page.old) × (n < 256 ^ width_bytes width) }
    ensures { page.new ≡ with_number width page.old offset n }
{
    match width {
        Width::One => put_byte(page, offset, n),
        Width::Two => put_word(page, offset, n),
        Width::Four => put_longword(page, offset, n),
    }
}

/// The reply of a reference by the 512 bytes of its page, which it may change.
pub fn apply(page: &mut [u8], r: Ref) -> Reply
    requires page { length page.old ≡ PAGE_BYTES }
    requires well_formed { IsWellFormedReference r }
    ensures reply { result ≡ reply_from r.op page.old (offset_in_page r) }
    ensures fits { IsReplyTo r.op result }
    ensures bytes { page.new ≡ bytes_after r.op page.old (offset_in_page r) }
{
    let offset = (r.addr.0 % PAGE_BYTES) as usize;
    match r.op {
        Op::Read(width) => Reply::Value(number(page, width, offset)),
        Op::Write(width, n) => {
            put_number(page, width, offset, n);
            Reply::Written
        }
        Op::Add(n) => {
            let old = longword_at(page, offset);
            put_longword(page, offset, old.wrapping_add(n));
            Reply::Old(old)
        }
    }
}
