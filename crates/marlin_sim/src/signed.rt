//! Line numbers below 0, as after `N-1 M110*15`: what the printer takes in place of such lines.
//!
//! Source: Marlin's queue.cpp, which reads a line number with its sign (`strtol`). Printrun's printcore begins a print with
//! `N-1 M110*15`, and numbers its first command 0.
ghost use Rattle.std.specs.Prelude.{◌≡◌, ◌≢◌, ◌≤◌, ◌+◌, ◌∷◌, [], ◌++◌, ℕ, List, true, length, OnOk, OnErr};
ghost use Rattle.std.specs.List.{list_all};
ghost use Rattle.arrayvec.specs.ArrayVec.{array_vec_len};
ghost use Rattle.byte_text.specs.declared.texts.TheConstants.{MOST_LINE_BYTES};
ghost use Rattle.printer_model.specs.World.{world_from};
ghost use Rattle.printer_model.specs.Replies.{reason_text, ok_line, taken_replies};
ghost use Rattle.marlin_sim.specs.Sim.{with_replies, AddsSome};
ghost use Rattle.printer_model.specs.declared.event.WorldEvent.{WorldEvent};
ghost use Rattle.marlin_sim.specs.declared.plan.SimPlan.{SimPlan};
ghost use Rattle.marlin_sim.specs.Lines.{whole_lines, planned};
ghost use Rattle.marlin_sim.specs.Run.{is_step, first_world, sim_from, model_world};
ghost use Rattle.marlin_sim.specs.Signed.{begins_with_minus, minus_of, follows_below, command_of, line_refused_for, given_below, given_setting, given, below_after, error_below, number_above, resend_below, replies_below, signed_replies, are_unsigned};

use crate::replies::Replies;
use byte_text::{ReplyLine, after, append, append_number, has_m110, number};
use marlin_frame::{begins_with_n, fails, has_checksum, has_second_n, line_number, text};
use printer_model::{Reason, Taken, error_line, ok_line, resend_line};
use std::alloc::AllocError;

// Whether a line begins with `N` and a minus sign.
#[tactic(auto, unfolding(crate::specs::Signed::begins_with_minus))]
fn begins_with_minus(line: &[u8]) -> bool
    ensures { result ≡ begins_with_minus line.now }
{
    match line {
        [letter, sign, ..] => *letter == b'N' && *sign == b'-',
        _ => false,
    }
}

// How far a line's number is below 0: not at all without a sign, or if the number after a second `N` counts.
#[tactic(auto, unfolding(crate::specs::Signed::minus_of))]
fn minus_of(line: &[u8]) -> u32
    ensures { result ≡ minus_of line.now }
{
    if begins_with_minus(line) && !has_second_n(line) {
        number(after(line, 2))
    } else {
        0
    }
}

// Whether a line's number is one above a last number that is this far below 0.
#[tactic(auto, unfolding(crate::specs::Signed::follows_below))]
fn follows_below(below: u32, line: &[u8]) -> bool
    ensures { result ≡ follows_below below line.now }
{
    line_number(line) == 0 && u64::from(below) == u64::from(minus_of(line)) + 1
}

// The command of a numbered line, whose number may have a sign.
#[tactic(auto, unfolding(crate::specs::Signed::command_of))]
fn command_of(line: &[u8]) -> &[u8]
    ensures value { result.now ≡ command_of line.now }
    ensures within { length result.now ≤ length line.now }
{
    if begins_with_minus(line) {
        text(after(line, 1))
    } else {
        text(line)
    }
}

// A line that the printer refuses for a reason, whatever its last number is.
#[tactic(auto, unfolding(crate::specs::Signed::line_refused_for))]
fn line_refused_for(reason: Reason) -> &'static [u8]
    ensures value { result.now ≡ line_refused_for reason }
    ensures short { length result.now ≤ 7 }
{
    match reason {
        Reason::WrongNumber => b"N0",
        Reason::NoChecksum => b"N M110",
        Reason::Mismatch => b"N M110*",
    }
}

// What is taken in place of a numbered line without `M110` after a last number that is this far below 0.
#[tactic(auto, unfolding(crate::specs::Signed::given_below))]
fn given_below(below: u32, line: &[u8]) -> &[u8]
    requires { length line.now ≤ MOST_LINE_BYTES }
    ensures value { result.now ≡ given_below below line.now }
    ensures short { length result.now ≤ MOST_LINE_BYTES }
{
    if !follows_below(below, line) {
        line_refused_for(Reason::WrongNumber)
    } else if !has_checksum(line) {
        line_refused_for(Reason::NoChecksum)
    } else if fails(line) {
        line_refused_for(Reason::Mismatch)
    } else {
        command_of(line)
    }
}

// What is taken in place of a numbered line with `M110`: if it sets a number below 0, a line that sets 0.
#[tactic(auto, unfolding(crate::specs::Signed::given_setting))]
fn given_setting(line: &[u8]) -> &[u8]
    requires { length line.now ≤ MOST_LINE_BYTES }
    ensures value { result.now ≡ given_setting line.now }
    ensures short { length result.now ≤ MOST_LINE_BYTES }
{
    if fails(line) || minus_of(line) == 0 {
        line
    } else {
        b"N0 M110*35"
    }
}

/// What the printer takes in place of a line of at most 95 bytes, if its last number is `below` below 0.
#[tactic(auto, unfolding(crate::specs::Signed::given))]
pub fn given(below: u32, line: &[u8]) -> &[u8]
    requires { length line.now ≤ MOST_LINE_BYTES }
    ensures value { result.now ≡ given below line.now }
    ensures short { length result.now ≤ MOST_LINE_BYTES }
{
    if !begins_with_n(line) {
        line
    } else if has_m110(line) {
        given_setting(line)
    } else if below == 0 {
        line
    } else {
        given_below(below, line)
    }
}

/// How far below 0 the last number is once a line was taken.
#[tactic(auto, unfolding(crate::specs::Signed::below_after))]
pub fn below_after(below: u32, line: &[u8], taken: &Taken) -> u32
    ensures { result ≡ below_after below line.now taken.now }
{
    match taken {
        Taken::Accepted if begins_with_n(line) => minus_of(line),
        _ => below,
    }
}

// Why a line was refused, as the printer says it.
#[tactic(auto, unfolding(printer_model::specs::Replies::reason_text))]
fn reason_bytes(reason: Reason) -> &'static [u8]
    ensures text { result.now ≡ reason_text reason }
    ensures short { length result.now ≤ 37 }
{
    match reason {
        Reason::WrongNumber => b"Line Number is not Last Line Number+1",
        Reason::NoChecksum => b"No Checksum with line number",
        Reason::Mismatch => b"checksum mismatch",
    }
}

// The first line of a refusal at a last number that is this far below 0.
#[tactic(auto, unfolding(crate::specs::Signed::error_below))]
fn error_line_below(reason: Reason, below: u32) -> ReplyLine
    ensures { result.items ≡ error_below reason below }
{
    let mut line = ReplyLine::new();
    append(&mut line, b"Error:");
    append(&mut line, reason_bytes(reason));
    append(&mut line, b", Last Line: -");
    append_number(&mut line, below);
    line
}

// Adds the number one above a last number that is this far below 0.
#[tactic(auto, unfolding(crate::specs::Signed::number_above))]
fn append_number_above(line: &mut ReplyLine, below: u32)
    requires some { 1 ≤ below }
    requires room { array_vec_len line.old + 11 ≤ 256 }
    ensures { line.new.items ≡ line.old.items ++ number_above below }
{
    if below == 1 {
        append(line, b"0");
        return;
    }
    append(line, b"-");
    append_number(line, below - 1);
}

// The second line of such a refusal, which asks for the number one above that one.
#[tactic(auto, unfolding(crate::specs::Signed::resend_below))]
fn resend_line_below(below: u32) -> ReplyLine
    requires { 1 ≤ below }
    ensures { result.items ≡ resend_below below }
{
    let mut line = ReplyLine::new();
    append(&mut line, b"Resend: ");
    append_number_above(&mut line, below);
    line
}

// Adds the three lines of a refusal, or the first of them.
#[tactic(auto, using(crate::proofs::Lost::three_more))]
fn put_refusal(replies: &mut Replies, error: &[u8], resend: &[u8]) -> Result<(), AllocError>
    ensures ok { OnOk result (replies.new
        ≡ with_replies replies.old (error.now ∷ resend.now ∷ ok_line ∷ [])) }
    ensures err { OnErr result
        (AddsSome replies.old (error.now ∷ resend.now ∷ ok_line ∷ []) replies.new) }
{
    replies.put(error)?;
    replies.put(resend)?;
    replies.put(ok_line().as_slice())
}

// Adds the replies to a line that was taken at a last number that isn't below 0.
#[tactic(auto, using(crate::proofs::Lost::none_more))]
fn put_taken(replies: &mut Replies, taken: &Taken) -> Result<(), AllocError>
    ensures ok { OnOk result (replies.new ≡ with_replies replies.old (taken_replies taken.now)) }
    ensures err { OnErr result (AddsSome replies.old (taken_replies taken.now) replies.new) }
{
    match taken {
        Taken::Accepted | Taken::Full => Ok(()),
        Taken::Refused { reason, last } => put_refusal(
            replies,
            error_line(*reason, *last).as_slice(),
            resend_line(*last).as_slice(),
        ),
    }
}

// Adds the replies to a line that was taken at a last number that is this far below 0.
#[tactic(auto, using(crate::proofs::Lost::none_more))]
fn put_taken_below(replies: &mut Replies, below: u32, taken: &Taken) -> Result<(), AllocError>
    requires { 1 ≤ below }
    ensures ok { OnOk result
        (replies.new ≡ with_replies replies.old (replies_below below taken.now)) }
    ensures err { OnErr result
        (AddsSome replies.old (replies_below below taken.now) replies.new) }
{
    match taken {
        Taken::Accepted | Taken::Full => Ok(()),
        Taken::Refused { reason, .. } => put_refusal(
            replies,
            error_line_below(*reason, below).as_slice(),
            resend_line_below(below).as_slice(),
        ),
    }
}

/// Adds the replies to a line that was taken, if the last number is `below` below 0. Fails if out of memory; then the
/// first of them were added.
#[tactic(auto, unfolding(crate::specs::Signed::signed_replies))]
pub fn put_replies(replies: &mut Replies, below: u32, taken: &Taken) -> Result<(), AllocError>
    ensures ok { OnOk result
        (replies.new ≡ with_replies replies.old (signed_replies below taken.now)) }
    ensures err { OnErr result
        (AddsSome replies.old (signed_replies below taken.now) replies.new) }
{
    if below == 0 {
        put_taken(replies, taken)
    } else {
        put_taken_below(replies, below, taken)
    }
}

/// Over lines whose numbers have no minus sign, the printer is the one of `printer_model`.
pub fn unsigned_law()
    ensures { (plan : SimPlan) (input : List ℕ) (events : List WorldEvent)
        → list_all is_step events ≡ true
        → are_unsigned (planned plan 1 (whole_lines input)) ≡ true
        → world_from (model_world (first_world plan input)) events
        ≡ model_world (sim_from (first_world plan input) events) }
{}
