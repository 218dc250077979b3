//! Where a line stands and which words it has, by its first word.

ghost use Rattle.std.specs.Prelude.{◌≡◌, ◌≤◌};
ghost use Rattle.arrayvec.specs.ArrayVec.{array_vec_len};
ghost use Rattle.command_messages.specs.Texts.{Adds, AreWords};
ghost use Rattle.command_messages.specs.Forms.{access_form, declared_form, form_text, machine_form, misplaced_text, place_text, request_form, service_form};

use crate::kinds::is_letter;
use crate::line_words::line_word;
use arrayvec::ArrayVec;
use trace_words::{Access, ServiceName, Verb, is, verb_of};
use vm_text::push_word;

// Where a line with this first word stands.
fn place_of(first: &[u8]) -> &'static [u8]
    ensures { AreWords result.now (place_text first.now) 80 }
{
    if is(first, b"VMTRACE") || is(first, b"LONGTRACE") {
        b"VMTRACE or LONGTRACE is the first of a trace, and there is one"
    } else if is(first, b"FRAMES") {
        b"FRAMES is next behind VMTRACE or LONGTRACE, and there is one"
    } else if is(first, b"PAGEFILE") {
        b"PAGEFILE is next behind FRAMES, and there is one"
    } else if is(first, b"BODY") {
        b"BODY is behind PAGEFILE and at least one PROCESS, and there is one"
    } else if is(first, b"END") {
        b"END is behind BODY and the requests, and there is one"
    } else if is_letter(first) {
        b"requests are between BODY and END"
    } else {
        b"declarations are between PAGEFILE and BODY"
    }
}

// The words of a line of the machine.
fn machine_form(first: &[u8]) -> &'static [u8]
    ensures { AreWords result.now (machine_form first.now) 80 }
{
    if is(first, b"VMTRACE") {
        b"VMTRACE 1 or VMTRACE 2"
    } else if is(first, b"LONGTRACE") {
        b"LONGTRACE 2"
    } else if is(first, b"FRAMES") {
        b"FRAMES n"
    } else if is(first, b"PAGEFILE") {
        b"PAGEFILE n"
    } else if is(first, b"PARAM") {
        b"PARAM name n"
    } else if is(first, b"BAD") {
        b"BAD f"
    } else if is(first, b"FAIL") {
        b"FAIL block, and 1 to 16 numbers of calls"
    } else if is(first, b"BODY") {
        b"BODY"
    } else if is(first, b"END") {
        b"END"
    } else if is(first, b"LOG") {
        b"LOG"
    } else {
        b"that of its first word"
    }
}

// The words of a line that isn't a request.
fn declared_form(first: &[u8]) -> &'static [u8]
    ensures { AreWords result.now (declared_form first.now) 80 }
{
    if is(first, b"SECTION") {
        b"SECTION name kind n"
    } else if is(first, b"DATA") {
        b"DATA name offset bytes"
    } else if is(first, b"PROCESS") {
        b"PROCESS x limit quota extent locks"
    } else if is(first, b"MAPZERO") {
        b"MAPZERO x address n protection"
    } else if is(first, b"MAPSEC") {
        b"MAPSEC x address n name first protection"
    } else {
        machine_form(first)
    }
}

// The words of a reference.
fn access_form(access: Access) -> &'static [u8]
    ensures { AreWords result.now (access_form access) 80 }
{
    match access {
        Access::Read(_) => b"x op address",
        Access::Write(_) => b"x op address value",
        Access::Add => b"x op address value",
    }
}

// The words of a service.
fn service_form(name: ServiceName) -> &'static [u8]
    ensures { AreWords result.now (service_form name) 80 }
{
    match name {
        ServiceName::Create => b"x CRETVA address n protection",
        ServiceName::Protect => b"x SETPRT address n protection",
        ServiceName::Delete => b"x DELTVA address n",
        ServiceName::Lock => b"x LKWSET address n",
        ServiceName::Unlock => b"x ULWSET address n",
        ServiceName::Purge => b"x PURGWS address n",
        ServiceName::Pin => b"x LCKPAG address n",
        ServiceName::Unpin => b"x ULKPAG address n",
        ServiceName::Adjust => b"x ADJWSL limit",
    }
}

// The words of a request.
fn request_form(verb: Option<Verb>) -> &'static [u8]
    ensures { AreWords result.now (request_form verb) 80 }
{
    match verb {
        None => b"x op address, x op address value, or that of a service",
        Some(Verb::Op(op)) => access_form(op.access),
        Some(Verb::Service(name)) => service_form(name),
    }
}

// The words of a line with this first and this second word.
fn form_of(first: &[u8], second: &[u8]) -> &'static [u8]
    ensures { AreWords result.now (form_text first.now second.now) 80 }
{
    if is_letter(first) {
        request_form(verb_of(second))
    } else {
        declared_form(first)
    }
}

// Adds why a line has no place, or its word of this number none.
pub(crate) fn push_misplaced(out: &mut ArrayVec<u8, 768>, word: u8, text: &[u8])
    requires { array_vec_len out.old ≤ 40 }
    ensures { Adds out.old.items out.new.items (misplaced_text word text.now) 240 }
{
    let first = line_word(1, text);
    if word == 1 {
        push_word(out, b"the line doesn't belong here: ");
        push_word(out, place_of(first));
    } else {
        push_word(out, b"the line has too many or too few words: its form is ");
        push_word(out, form_of(first, line_word(2, text)));
    }
}
