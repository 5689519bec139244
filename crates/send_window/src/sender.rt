//! The sender of one session after another.
ghost use Rattle.std.specs.Prelude.{◌≡◌, ◌<◌, ◌≤◌, ◌+◌, ◌^◌, All, length, IfOk, IfSome, IsNone, None, option_map, true, false};
ghost use Rattle.byte_text.specs.Marks.{has_byte};
ghost use Rattle.byte_text.specs.declared.texts.TheConstants.{MOST_LINE_BYTES};
ghost use Rattle.marlin_frame.specs.Numbering.{wire_number};
ghost use Rattle.send_window.specs.Data.{IsSound, new_sender, sender_after_dial};
ghost use Rattle.send_window.specs.Hearing.{hear_step, tick_step, answer_of};
ghost use Rattle.send_window.specs.Sending.{IsFramable, hello_with, room_at, room_of, last_room_of, push_step, next_of, number_of_outgoing, bytes_of_outgoing, frame_step};

use crate::held::Held;
use crate::session_end::SessionEnd;
use byte_text::Line;
use marlin_frame::{HELLO_NUMBER, frame, wire_number};
use marlin_reply::Reply;
use std::alloc::{AllocError, Global};
use std::marker::Model;

mod clock;
mod hearing;

// The most lines of a session: their numbers go from 2 to `LAST_NUMBER`.
const MOST_LINES: u32 = 1_999_999_999;

// The most lines that may be unacknowledged, without one that stops the printer.
const MOST_OPEN: u8 = 16;

// The most hellos of a session, if each has a number of its own.
const MOST_HELLOS: u8 = 10;

// After this number of limits in a row the session ends: limits in which nothing was received, and before the `ok` of the
// hello all of them.
const MOST_SILENT: u8 = 5;

// After this number of limits in a row in which the printer asked for the line after the last issued one the session ends.
const MOST_TOLD: u8 = 20;

/// Sends the lines of a session in order, as Marlin's serial protocol asks: each has a number from 2 and a checksum,
/// is held until its `ok`, and goes out again on a Resend or if the limit passes. A session begins with the hello
/// `N0 M110 N1*124`, and sends nothing else before its `ok` but for one line that stops the printer. So no line has the
/// number 1, which a printer that has restarted expects. Moments and the limit are in milliseconds.
///
/// If `ok`s count by their numbers, the hello goes out again after a limit or a Resend, each time under the next number and
/// with a limit more to be answered in; only the `ok` that names the last one counts. So a printer that was still starting is
/// reached, and a lost hello or its `ok` is made good. The same hello twice would be wrong: the second one may wait in the
/// printer behind which a line was taken, and sets its number back.
#[derive(Drop)]
pub struct Sender {
    // Lines go by their places in the session, from 1. First the most lines that may be unacknowledged.
    window: u8,
    // Whether an `ok` counts only by the number that it names.
    numbered: bool,
    // How long an answer may take.
    limit: u64,
    // How many lines were issued, and how many of them were acknowledged.
    issued: u32,
    acked: u32,
    // The texts of the others, in order.
    held: Held,
    // The next line to send.
    cursor: u32,
    // The last line that was ever sent, 0 for none.
    sent: u32,
    // Whether the next `ok` only ends a Resend.
    swallow: bool,
    // The line that the last Resend asked for, and how many more of the same are ignored.
    asked: u32,
    left: u32,
    // The moment by which an answer is wanted.
    deadline: Option<u64>,
    // Whether something was heard since the deadline was set.
    heard: bool,
    // How many limits in a row passed in silence, or before the `ok` of the hello.
    silent: u8,
    // Whether a Resend was heard since the last limit, and in how many limits in a row the printer asked for the line after the
    // last issued one.
    asked_anew: bool,
    told: u8,
    // How many lines more than the window may be unacknowledged, and whether a limit has passed since a Resend last said
    // what the printer has.
    extra: u8,
    doubts: bool,
    // How many hellos were sent, if each has a number of its own: the number of the next one.
    hellos: u8,
    // Whether the hello is to be sent, and whether it was acknowledged.
    hello_due: bool,
    ready: bool,
    // Why the session ended.
    ended: Option<SessionEnd>,
}

impl Model for Sender {
    ghost use Rattle.send_window.specs.Data.{SenderData};

    ghost Value = { SenderData };

    ghost use Rattle.send_window.specs.Fields.{data_of, IsInOrder};

    ghost view = { data_of };

    ghost invariant = { IsInOrder };
}

impl Sender {
    /// A sender of no session yet. At most `window` lines are unacknowledged at a time, 1 to 16; `limit` is the time
    /// that an answer may take, in milliseconds, at least 1. If `numbered`, an `ok` counts only by the number that it
    /// names, as with Marlin's `ADVANCED_OK`. Then a line more than the window may be unacknowledged, 16 in all, each time
    /// a limit shows that an `ok` was lost, since the next line's makes it good. Fails if out of memory.
    pub fn new(alloc: Global, window: u8, numbered: bool, limit: u64) -> Result<Sender, AllocError>
        requires open_window { 1 ≤ window }
        requires small_window { window ≤ 16 }
        requires some_limit { 1 ≤ limit }
        ensures { IfOk result (λ sender. sender ≡ new_sender window numbered limit) }
    {
        let held = Held::new(alloc)?;
        Ok(Sender {
            window,
            numbered,
            limit,
            issued: 0,
            acked: 0,
            held,
            cursor: 1,
            sent: 0,
            swallow: false,
            asked: 0,
            left: 0,
            deadline: None,
            heard: false,
            silent: 0,
            asked_anew: false,
            told: 0,
            extra: 0,
            doubts: false,
            hellos: 0,
            hello_due: false,
            ready: false,
            ended: None,
        })
    }

    /// Begins a session: all is as new, and the hello is to be sent.
    pub fn hello(&mut self)
        ensures state { self.new ≡ sender_after_dial self.old }
        ensures sound { IsSound self.new }
    {
        self.issued = 0;
        self.acked = 0;
        self.held.clear();
        self.cursor = 1;
        self.sent = 0;
        self.swallow = false;
        self.asked = 0;
        self.left = 0;
        self.deadline = None;
        self.heard = false;
        self.silent = 0;
        self.asked_anew = false;
        self.told = 0;
        self.extra = 0;
        self.doubts = false;
        self.hellos = 0;
        self.hello_due = true;
        self.ready = false;
        self.ended = None;
    }

    /// Takes a reply of the printer that was received at `moment`, in milliseconds: an `ok` acknowledges the next line unless
    /// it follows a Resend, or all lines through the one that it names if the `ok`s count by their numbers. A Resend has its
    /// line sent again with all that follow it. What fits no line of the session ends it. After an end it changes nothing and
    /// returns that end.
    pub fn hear(&mut self, reply: &Reply, moment: u64) -> Result<(), SessionEnd>
        ensures state { self.new ≡ hear_step reply.now moment self.old }
        ensures answer { result ≡ answer_of self.new.ended }
        ensures sound { IsSound self.new }
    {
        if self.ended.is_none() {
            self.hear_reply(reply, moment);
        }
        self.answer()
    }

    /// Notes that it is `moment`, in milliseconds: if the limit has passed, all that is unacknowledged is sent again, and the
    /// session ends when five limits in a row have passed in silence, or without the `ok` of the hello. After an end it changes
    /// nothing and returns that end.
    pub fn tick(&mut self, moment: u64) -> Result<(), SessionEnd>
        ensures state { self.new ≡ tick_step moment self.old }
        ensures answer { result ≡ answer_of self.new.ended }
        ensures sound { IsSound self.new }
    {
        if self.ended.is_none() {
            self.tick_open(moment);
        }
        self.answer()
    }

    /// Whether the hello of the session was acknowledged.
    pub fn ready(&self) -> bool
        ensures ready { result ≡ self.now.ready }
        ensures sound { IsSound self.now }
    {
        self.ready
    }

    /// How many lines of the session were acknowledged.
    pub fn acked(&self) -> u32
        ensures acked { result ≡ self.now.acked }
        ensures sound { IsSound self.now }
    {
        self.acked
    }

    /// How many lines of the session were issued.
    pub fn issued(&self) -> u32
        ensures issued { result ≡ self.now.issued }
        ensures sound { IsSound self.now }
    {
        self.issued
    }

    /// How many more lines may be issued: in a ready session as many as the window, with what it has more, and the most lines leave,
    /// else 0.
    pub fn room(&self) -> usize
        ensures room { result ≡ room_of self.now }
        ensures sound { IsSound self.now }

        // As many as it may be with one that stops the printer.
        ensures last { result ≤ last_room_of self.now }
    {
        self.room_in(self.window)
    }

    /// The same if the last of these lines stops the printer: that one may be past the window, and before the `ok` of the hello it
    /// may be the only one.
    pub fn last_room(&self) -> usize
        ensures room { result ≡ last_room_of self.now }
        ensures sound { IsSound self.now }
    {
        if self.ended.is_none() && !self.ready {
            return 1 - self.issued as usize;
        }
        self.room_in(self.window + 1)
    }

    // How many more lines may be issued with a window of this size.
    fn room_in(&self, window: u8) -> usize
        ensures { result
            ≡ room_at self.now.ended self.now.ready (record self.now { window = window }) }
    {
        if self.ended.is_some() || !self.ready {
            return 0;
        }
        let open = (u32::from(window) + u32::from(self.extra)).saturating_sub(
            self.issued - self.acked,
        );
        open.min(MOST_LINES - self.issued) as usize
    }

    /// Issues a line and returns its number, one more than the last one; the first line has 2. The text has 1 to 79
    /// bytes, no `*` and no line feed. A line that stops the printer may be one more than the window holds, or the only one
    /// before the `ok` of the hello: a session that issued it so hears no more.
    pub fn push(&mut self, text: &[u8]) -> u32
        requires room { 0 < last_room_of self.old }
        requires framable { IsFramable text.now }
        ensures state { self.new ≡ push_step text.now self.old }
        ensures number { result ≡ wire_number (self.old.issued + 1) }
        ensures sound { IsSound self.new }

        // What the text's type says of it.
        ensures bytes { All (λ b. b < 2 ^ 8) text.now }
    {
        self.held.push(text);
        self.issued += 1;
        wire_number(self.issued)
    }

    /// Writes what is to be sent next, at most 95 bytes without a line end, and returns its number, 1 for the hello.
    /// If nothing is, it writes nothing. Whoever calls it at `moment` sends the line then: that starts the time limit.
    pub fn next_frame(&mut self, moment: u64, into: &mut Line) -> Option<u32>
        ensures number { result ≡ option_map number_of_outgoing (next_of self.old) }
        ensures bytes { IfSome (next_of self.old)
            (λ next. into.new.items ≡ bytes_of_outgoing next) }
        ensures short { IfSome (next_of self.old) (λ _. length into.new.items ≤ MOST_LINE_BYTES) }
        ensures one_line { IfSome (next_of self.old) (λ _. has_byte 10 into.new.items ≡ false) }
        ensures nothing { IsNone (next_of self.old) → into.new ≡ into.old }
        ensures state { self.new ≡ frame_step moment self.old }
        ensures sound { IsSound self.new }
    {
        if self.ended.is_some() {
            return None;
        }
        if self.hello_due {
            write_hello(self.hellos, into);
            self.give_hello(moment);
            return Some(HELLO_NUMBER);
        }
        if self.cursor > self.issued {
            return None;
        }
        let number = wire_number(self.cursor);
        self.held
            .frame_at((self.cursor - self.acked - 1) as usize, number, into);
        self.give_line(moment);
        Some(number)
    }

    fn answer(&self) -> Result<(), SessionEnd>
        ensures answer { result ≡ answer_of self.now.ended }
        ensures sound { IsSound self.now }
    {
        match self.ended {
            Some(end) => Err(end),
            None => Ok(()),
        }
    }
}

// Writes the hello under a number of its own. Nothing of what the line held stays.
#[tactic(auto, unfolding(byte_text::specs::Marks::has_byte))]
fn write_hello(number: u8, into: &mut Line)
    ensures written { into.new.items ≡ hello_with number }
    ensures at_most_95 { length into.new.items ≤ MOST_LINE_BYTES }
    ensures one_line { has_byte 10 into.new.items ≡ false }
{
    frame(u32::from(number), b"M110 N1", into);
}
