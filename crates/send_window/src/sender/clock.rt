//! What the clock makes of a sender, and the moments by which an answer is due.
ghost use Rattle.std.specs.Prelude.{◌≡◌, ◌≤◌, ◌*◌, None, Some, unwrap_or, true, false};
ghost use Rattle.send_window.specs.Data.{IsSound};
ghost use Rattle.send_window.specs.Hearing.{deadline_at, due_again, end_of_numbers, is_greeting, is_past, later, limit_passed, renewed, silent_limits, ticked, told_limits, wait_after};
ghost use Rattle.send_window.specs.Sending.{after_giving, hello, next_line};

use super::{MOST_HELLOS, MOST_LINES, MOST_SILENT, MOST_TOLD, Sender};
use crate::session_end::SessionEnd;

impl Sender {
    pub(super) fn give_hello(&mut self, moment: u64)
        requires { self.old.hello_due ≡ true }
        ensures state { self.new ≡ after_giving (Some (hello self.old.hellos)) moment self.old }
        ensures sound { IsSound self.new }
    {
        self.hello_due = false;
        if self.numbered {
            self.hellos += 1;
        }
        self.heard = self.deadline.is_some() && self.heard;
        self.deadline = Some(deadline_from(self.deadline, moment, self.limit));
    }

    pub(super) fn give_line(&mut self, moment: u64)
        requires hello_given { self.old.hello_due ≡ false }
        requires issued { self.old.cursor ≤ self.old.issued }
        ensures state { self.new ≡ after_giving (next_line self.old) moment self.old }
        ensures sound { IsSound self.new }
    {
        self.sent = self.sent.max(self.cursor);
        self.cursor += 1;
        self.heard = self.deadline.is_some() && self.heard;
        self.deadline = Some(deadline_from(self.deadline, moment, self.limit));
    }

    pub(super) fn tick_open(&mut self, moment: u64)
        requires { self.old.ended ≡ None }
        ensures { self.new ≡ ticked moment self.old }
    {
        match self.deadline {
            Some(deadline) if deadline <= moment => self.pass_limit(moment),
            _ => {}
        }
    }

    // The count of limits in which the printer asked for the line after the last issued one, if one more has passed.
    fn told_limits(&self) -> u8
        requires { self.now.ended ≡ None }
        ensures { result ≡ told_limits self.now }
    {
        if self.asked_anew && self.asked == self.issued + 1 {
            self.told + 1
        } else {
            0
        }
    }

    // Whether the hello has no `ok` yet, and each has a number of its own.
    fn is_greeting(&self) -> bool
        ensures { result ≡ is_greeting self.now }
    {
        self.numbered && !self.ready
    }

    // Whether a hello is to be sent after a limit.
    fn is_due_again(&self) -> bool
        ensures { result ≡ due_again self.now }
    {
        if self.is_greeting() {
            self.hellos < MOST_HELLOS
        } else {
            self.hello_due
        }
    }

    // The next deadline, after this count of silent limits.
    fn deadline_after(&self, silent: u8, moment: u64) -> u64
        ensures { result ≡ later moment (wait_after silent self.now) }
    {
        if self.is_greeting() {
            later_by_limits(moment, u64::from(silent) + 1, self.limit)
        } else {
            later_by(moment, self.limit)
        }
    }

    fn pass_limit(&mut self, moment: u64)
        requires open { self.old.ended ≡ None }
        requires late { is_past self.old.deadline moment ≡ true }
        ensures { self.new ≡ limit_passed moment self.old }
    {
        let silent = if self.heard && self.ready {
            0
        } else {
            self.silent + 1
        };
        self.silent = silent;
        if silent == MOST_SILENT {
            self.ended = Some(SessionEnd::NoAnswer { silent });
            return;
        }
        let told = self.told_limits();
        self.told = told;
        if told == MOST_TOLD {
            self.ended = Some(SessionEnd::LostOk { limits: told });
            return;
        }
        self.asked_anew = false;
        if self.ready {
            self.cursor = self.acked + 1;
            self.left = 0;
        }
        self.doubts = self.doubts || (self.numbered && self.ready);
        self.hello_due = self.is_due_again();
        self.heard = false;
        self.deadline = Some(self.deadline_after(silent, moment));
    }
}

// The moment `span` milliseconds later, at most the greatest one.
#[tactic(auto, unfolding(crate::specs::Hearing::later))]
fn later_by(moment: u64, span: u64) -> u64
    ensures { result ≡ later moment span }
{
    moment.saturating_add(span)
}

// The moment this number of limits later, at most the greatest one.
#[tactic(auto, unfolding(crate::specs::Hearing::later))]
fn later_by_limits(moment: u64, count: u64, limit: u64) -> u64
    ensures { result ≡ later moment (count * limit) }
{
    moment.saturating_add(count.saturating_mul(limit))
}

// The deadline at a moment, none if all lines are acknowledged.
pub(super) fn deadline_of(moment: u64, span: u64, acknowledged: u32, all: u32) -> Option<u64>
    ensures { result ≡ deadline_at moment span acknowledged all }
{
    if acknowledged == all {
        None
    } else {
        Some(later_by(moment, span))
    }
}

// The deadline after a Resend, never sooner than the one that is set.
pub(super) fn renewed(standing: Option<u64>, next: Option<u64>) -> Option<u64>
    ensures { result ≡ renewed standing next }
{
    match (standing, next) {
        (Some(deadline), Some(next)) => Some(deadline.max(next)),
        _ => next,
    }
}

// The end of a session that has had the most lines.
pub(super) fn end_of(acknowledged: u32, all: u32) -> Option<SessionEnd>
    ensures { result ≡ end_of_numbers acknowledged all }
{
    if acknowledged == MOST_LINES {
        Some(SessionEnd::NumbersUsed { issued: all })
    } else {
        None
    }
}

// The deadline that is set, or else the one from a moment on.
fn deadline_from(standing: Option<u64>, moment: u64, span: u64) -> u64
    ensures { result ≡ unwrap_or standing (later moment span) }
{
    match standing {
        Some(deadline) => deadline,
        None => later_by(moment, span),
    }
}
