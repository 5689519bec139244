//! The lines that the printer replies, by Marlin's serial protocol.
//!
//! Source: Marlin's queue.cpp for `ok` and the three lines of a `Resend:`; `ADVANCED_OK` for numbered acknowledgements;
//! temperature.cpp for the report of temperatures.
ghost use Rattle.std.specs.Prelude.{◌≡◌, ◌+◌, ◌≤◌, ◌++◌, length, decimal, codes, min};
ghost use Rattle.arrayvec.specs.ArrayVec.{array_vec_len};
ghost use Rattle.printer_model.specs.Replies.{reason_text, asked_after, error_line, resend_line, ok_line, start_line, temperatures_line, n_parameter_text, numbered_ok, run_reply};

use crate::printer::Reason;
use byte_text::{ReplyLine, append, append_number};

// Why a line was refused, as the printer says it.
#[tactic(auto, unfolding(crate::specs::Replies::reason_text))]
fn reason_bytes(reason: Reason) -> &'static [u8]
    ensures text { result.now ≡ reason_text reason }
    ensures short { length result.now ≤ 37 }
{
    match reason {
        Reason::WrongNumber => b"Line Number is not Last Line Number+1",
        Reason::NoChecksum => b"No Checksum with line number",
        Reason::Mismatch => b"checksum mismatch",
    }
}

/// The first of the three lines of a refusal: `Error:<reason>, Last Line: <last>`.
pub fn error_line(reason: Reason, last: u32) -> ReplyLine
    ensures { result.items ≡ error_line reason last }
{
    let mut line = ReplyLine::new();
    append(&mut line, b"Error:");
    append(&mut line, reason_bytes(reason));
    append(&mut line, b", Last Line: ");
    append_number(&mut line, last);
    line
}

/// The second line of a refusal: `Resend:` and the number after the last, or the greatest number after which there is none.
#[tactic(auto, unfolding(crate::specs::Replies::resend_line, crate::specs::Replies::asked_after))]
pub fn resend_line(last: u32) -> ReplyLine
    ensures { result.items ≡ resend_line last }
{
    let mut line = ReplyLine::new();
    append(&mut line, b"Resend: ");
    append_number(&mut line, last.saturating_add(1));
    line
}

/// The third line of a refusal, and the plain reply to a line that was run: `ok`.
#[tactic(auto, unfolding(crate::specs::Replies::ok_line))]
pub fn ok_line() -> ReplyLine
    ensures { result.items ≡ ok_line }
{
    let mut line = ReplyLine::new();
    append(&mut line, b"ok");
    line
}

/// What the printer says as it starts: `start`.
#[tactic(auto, unfolding(crate::specs::Replies::start_line))]
pub fn start_line() -> ReplyLine
    ensures { result.items ≡ start_line }
{
    let mut line = ReplyLine::new();
    append(&mut line, b"start");
    line
}

// The reply to `M105`, which asks for the temperatures.
#[tactic(auto, unfolding(crate::specs::Replies::temperatures_line))]
fn temperatures_line() -> ReplyLine
    ensures { result.items ≡ temperatures_line }
{
    let mut line = ReplyLine::new();
    append(&mut line, b"ok T:21.30 /0.00 B:21.22 /0.00 @:0 B@:0");
    line
}

// Adds the N parameter, ` N<n_parameter>`, if the line has one.
fn append_n_parameter(line: &mut ReplyLine, n_parameter: Option<u32>)
    requires { array_vec_len line.old + 12 ≤ 256 }
    ensures items { line.new.items ≡ line.old.items ++ n_parameter_text n_parameter }
    ensures short { array_vec_len line.new ≤ array_vec_len line.old + 12 }
{
    if let Some(number) = n_parameter {
        append(line, b" N");
        append_number(line, number);
    }
}

// A numbered acknowledgement, with the free buffer slots: `ok N<n_parameter> P15 B<free>`.
#[tactic(auto, unfolding(crate::specs::Replies::numbered_ok))]
fn numbered_ok(n_parameter: Option<u32>, free: u8) -> ReplyLine
    ensures { result.items ≡ numbered_ok n_parameter free }
{
    let mut line = ReplyLine::new();
    append(&mut line, b"ok");
    append_n_parameter(&mut line, n_parameter);
    append(&mut line, b" P15 B");
    append_number(&mut line, u32::from(free));
    line
}

// The reply to a line that was run, numbered if the printer answers so.
#[tactic(auto, unfolding(crate::specs::Replies::run_reply))]
pub(crate) fn run_reply(
    numbered: bool,
    n_parameter: Option<u32>,
    text: &[u8],
    free: u8,
) -> ReplyLine
    ensures { result.items ≡ run_reply numbered n_parameter text.now free }
{
    if text == b"M105".as_slice() {
        temperatures_line()
    } else if numbered {
        numbered_ok(n_parameter, free)
    } else {
        ok_line()
    }
}
