//! The message about a line of a log.

ghost use Rattle.std.specs.Prelude.{◌≡◌, ◌≤◌, ◌++◌, codes, decimal, length};
ghost use Rattle.arrayvec.specs.ArrayVec.{array_vec_len};
ghost use Rattle.command_messages.specs.Texts.{Adds};
ghost use Rattle.command_messages.specs.LogMessage.{line_part, log_message, next_text, reply_text, why_text};

use crate::said::push_reason;
use crate::shown::push_shown;
use arrayvec::ArrayVec;
use log_reasons::LineReason;
use vm_text::{push_count, push_decimal, push_hex, push_why, push_word};
use vm_types::Reply;

// Adds the reply that would have been right.
fn add_reply(out: &mut ArrayVec<u8, 1024>, reply: Reply)
    requires { array_vec_len out.old ≤ 800 }
    ensures { Adds out.old.items out.new.items (reply_text reply) 12 }
{
    match reply {
        Reply::Value(value) => push_hex(out, value, 8),
        Reply::Written => push_word(out, b"written"),
        Reply::Old(value) => push_hex(out, value, 8),
        Reply::Refused(why) => push_why(out, why),
    }
}

// Adds words, and a number behind them.
fn add_numbered(out: &mut ArrayVec<u8, 1024>, words: &[u8], number: u64)
    requires room { array_vec_len out.old ≤ 800 }
    requires short { length words.now ≤ 60 }
    ensures { Adds out.old.items out.new.items (words.now ++ decimal number) 80 }
{
    push_word(out, words);
    push_decimal(out, number);
}

// Adds the line that comes next, by its first bytes, or that none does.
fn add_next(out: &mut ArrayVec<u8, 1024>, right: &ArrayVec<u8, 80>)
    requires { array_vec_len out.old ≤ 600 }
    ensures { Adds out.old.items out.new.items (next_text right.now.items) 380 }
{
    let bytes = right.as_slice();
    if bytes.is_empty() {
        push_word(out, b"no line comes here");
    } else {
        push_word(out, b"the line that comes here is ");
        push_shown(out, bytes);
    }
}

// Adds that a reply is another one.
fn add_other_reply(out: &mut ArrayVec<u8, 1024>, reply: Reply)
    requires { array_vec_len out.old ≤ 600 }
    ensures { Adds out.old.items out.new.items (codes "the right reply is another one, " ++ reply_text reply) 60 }
{
    push_word(out, b"the right reply is another one, ");
    add_reply(out, reply);
}

// Adds why a line of a log isn't a legal next one.
fn add_why(out: &mut ArrayVec<u8, 1024>, why: &LineReason)
    requires { array_vec_len out.old ≤ 600 }
    ensures { Adds out.old.items out.new.items (why_text why.now) 380 }
{
    match why {
        LineReason::Ended => push_word(out, b"the log is right as far as it goes"),
        LineReason::NotEnded => push_word(out, b"the log ends within the line"),
        LineReason::TooLong => push_word(out, b"the line has more than 255 bytes"),
        LineReason::NoEntry => push_word(out, b"the line is no entry's"),
        LineReason::NotNextNumber(n) => add_numbered(out, b"the next entry's number is ", *n),
        LineReason::NotInText(right) => add_next(out, right),
        LineReason::NotLegal(reason) => push_reason(out, *reason),
        LineReason::OutOfOrder => push_word(out, b"it isn't what the process asks for next"),
        LineReason::WrongReply(reply) => add_other_reply(out, *reply),
        LineReason::NotOfRundown => push_word(out, b"no rundown makes this entry next"),
    }
}

// Adds the line of a log with these first bytes, or that it is missing.
fn add_line(out: &mut ArrayVec<u8, 1024>, why: &LineReason, text: &ArrayVec<u8, 80>)
    requires { array_vec_len out.old ≤ 100 }
    ensures { Adds out.old.items out.new.items (line_part why.now text.now.items) 330 }
{
    match why {
        LineReason::Ended => push_word(out, b" is missing"),
        _ => {
            push_word(out, b": ");
            push_shown(out, text.as_slice());
        }
    }
}

/// The message about the line of this number of a log, which has these first bytes: why it isn't a legal next one.
/// Doesn't allocate.
pub(crate) fn log_message(
    number: u32,
    why: &LineReason,
    text: &ArrayVec<u8, 80>,
) -> ArrayVec<u8, 1024>
    ensures { result.items ≡ log_message number why.now text.now.items }
{
    let mut out = ArrayVec::new();
    push_word(&mut out, b"neqysbar: log line ");
    push_count(&mut out, number);
    add_line(&mut out, why, text);
    push_word(&mut out, b": ");
    add_why(&mut out, why);
    push_word(&mut out, b"\n");
    out
}
