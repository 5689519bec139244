//! The printer: it takes numbered lines into a short queue and runs them in order, as Marlin's command queue does.
//!
//! Source: Marlin's queue.cpp; `BUFSIZE` for the buffer slots; `MAX_CMD_SIZE`, 96, for the longest line; `ADVANCED_OK`
//! for numbered acknowledgements.
ghost use Rattle.std.specs.Prelude.{◌≡◌, ◌≤◌, ◌+◌, ◌-◌, List, [], ◌∷◌, length, Option, drop};
ghost use Rattle.byte_text.specs.declared.texts.TheConstants.{MOST_LINE_BYTES};
ghost use Rattle.printer_model.specs.Replies.{run_reply};
ghost use Rattle.printer_model.specs.Printer.{is_full, judged, is_out_of_turn, number_or, last_after, numbered_entry, plain_entry, printer_after_restart, run_front, take_line};

use crate::oks::Oks;
use crate::replies::run_reply;
use arrayvec::ArrayVec;
use byte_text::{Line, ReplyLine, bounded_text, has_m110};
use marlin_frame::{begins_with_n, fails, has_checksum, line_number, n_parameter, text};
use std::marker::Model;

/// Why the printer refuses a line that begins with `N`.
#[derive(Clone, Copy, Debug, PartialEq, Eq)]
pub enum Reason {
    /// The number isn't one above the last, and the line doesn't set it by `M110`.
    WrongNumber,
    /// The line has no `*`.
    NoChecksum,
    /// The checksum isn't the line's.
    Mismatch,
}

/// What became of a line that reached the printer.
#[derive(Clone, Copy, Debug, PartialEq, Eq)]
pub enum Taken {
    /// It waits in the queue.
    Accepted,
    /// The queue was full; the line wasn't read.
    Full,
    /// It was refused at this last line number, and nothing changed.
    Refused { reason: Reason, last: u32 },
}

/// A line that the printer ran, with its number if it had one, and the reply to it.
#[derive(Drop)]
pub struct Ran {
    pub number: Option<u32>,
    pub text: Line,
    pub reply: ReplyLine,
}

impl Model for Ran {
    ghost use Rattle.printer_model.specs.Printer.{RanLine};

    ghost Value = { RanLine };

    ghost view = { λ r. record { number = r.number; text = r.text.items; reply = r.reply.items } };
}

// A line that waits to be run. `n_parameter` is its N parameter; if a second `N` follows, the number is after that one.
#[derive(Default, Drop)]
struct Waiting {
    number: Option<u32>,
    n_parameter: Option<u32>,
    text: Line,
}

impl Model for Waiting {
    ghost use Rattle.printer_model.specs.Printer.{Entry};

    ghost Value = { Entry };

    ghost view = { λ w. record { number = w.number; n_parameter = w.n_parameter; text = w.text.items } };
}

/// The printer without a record of what it ran: its last line number, its buffer slots, its acknowledgements, and what
/// waits.
#[derive(Drop)]
pub struct Printer {
    last: u32,
    slots: u8,
    oks: Oks,
    queue: ArrayVec<Waiting, 16>,
}

impl Model for Printer {
    ghost use Rattle.std.specs.Prelude.{◌≤◌, length};
    ghost use Rattle.printer_model.specs.Printer.{PrinterData};

    ghost Value = { PrinterData };

    ghost view = { λ p. record {
      last = p.last;
      slots = p.slots;
      oks = p.oks;
      queue = p.queue.items;
    } };

    ghost invariant = { λ p. (p.slots ≤ 16) × (length p.queue.items ≤ p.slots) };
}

impl Printer {
    /// A printer with this last line number, 1 to 16 buffer slots and these acknowledgements. Nothing waits.
    pub fn new(last: u32, slots: u8, oks: Oks) -> Self
        requires some { 1 ≤ slots }
        requires few { slots ≤ 16 }
        ensures { result ≡ record {
          last = last;
          slots = slots;
          oks = oks;
          queue = [];
        } }
    {
        Printer {
            last,
            slots,
            oks,
            queue: ArrayVec::new(),
        }
    }

    /// Takes a line of at most 95 bytes into the queue, refuses it, or leaves it unread if the queue is full.
    pub fn arrive(&mut self, line: &[u8]) -> Taken
        requires { length line.now ≤ MOST_LINE_BYTES }
        ensures taken { result ≡ (take_line self.old line.now).0 }
        ensures after { self.new ≡ (take_line self.old line.now).1 }
    {
        self.take(line)
    }

    // `arrive` for any line that the outside can hold.
    pub(crate) fn take(&mut self, line: &[u8]) -> Taken
        requires { length line.now ≤ 96 }
        ensures taken { result ≡ (take_line self.old line.now).0 }
        ensures after { self.new ≡ (take_line self.old line.now).1 }
    {
        if self.is_full() {
            return Taken::Full;
        }
        match judge(self.last, line) {
            Ok(entry) => {
                if let Some(number) = entry.number {
                    self.last = number;
                }
                self.queue.push(entry);
                Taken::Accepted
            }
            Err(reason) => Taken::Refused {
                reason,
                last: self.last,
            },
        }
    }

    /// Runs the front of the queue; None if nothing waits.
    pub fn run_one(&mut self) -> Option<Ran>
        ensures ran { result ≡ (run_front self.old).0 }
        ensures after { self.new ≡ (run_front self.old).1 }
    {
        let ran = self.next_run();
        self.drop_front();
        ran
    }

    // What running the front of the queue would say.
    pub(crate) fn next_run(&self) -> Option<Ran>
        ensures { result ≡ (run_front self.now).0 }
    {
        match self.queue.as_slice() {
            [] => None,
            [entry, ..] => Some(ran_line(
                self.oks.numbered,
                self.slots - self.queue.len() as u8,
                entry,
            )),
        }
    }

    // The printer after the front of its queue was run.
    pub(crate) fn drop_front(&mut self)
        ensures { self.new ≡ (run_front self.old).1 }
    {
        if !self.queue.is_empty() {
            let entry = self.queue.remove(0);
            self.last = next_last(self.last, &entry);
        }
    }

    // The printer restarts: its last line number is 0, and nothing waits.
    //
    // Source: Marlin's queue.cpp, whose line number and ring buffer are in memory that a reset clears.
    pub(crate) fn restart(&mut self)
        ensures { self.new ≡ printer_after_restart self.old }
    {
        self.last = 0;
        self.queue.clear();
    }

    // Its acknowledgements.
    pub(crate) fn oks(&self) -> Oks
        ensures { result ≡ self.now.oks }
    {
        self.oks
    }

    // How many entries wait.
    pub(crate) fn waiting(&self) -> usize
        ensures { result ≡ length self.now.queue }
    {
        self.queue.len()
    }

    // Whether as many entries wait as may.
    pub(crate) fn is_full(&self) -> bool
        ensures { result ≡ is_full self.now }
    {
        self.queue.len() >= usize::from(self.slots)
    }

    // The last line number.
    pub(crate) fn last(&self) -> u32
        ensures { result ≡ self.now.last }
    {
        self.last
    }

    // Sets the last line number, as a printer has it when a link is made.
    pub(crate) fn set_last(&mut self, last: u32)
        ensures { self.new ≡ record self.old { last = last } }
    {
        self.last = last;
    }
}

// The reply after an entry ran, with this number of free buffer slots.
fn ran_line(numbered: bool, free: u8, entry: &Waiting) -> Ran
    ensures { result ≡ record {
      number = entry.now.number;
      text = entry.now.text;
      reply = run_reply
          numbered entry.now.n_parameter entry.now.text free;
    } }
{
    Ran {
        number: entry.number,
        text: bounded_text(entry.text.as_slice()),
        reply: run_reply(numbered, entry.n_parameter, entry.text.as_slice(), free),
    }
}

// Whether a line's number doesn't follow the last one, and the line doesn't set the number either.
#[tactic(auto, unfolding(crate::specs::Printer::is_out_of_turn))]
fn is_out_of_turn(last: u32, line: &[u8]) -> bool
    ensures { result ≡ is_out_of_turn last line.now }
{
    u64::from(line_number(line)) != u64::from(last) + 1 && !has_m110(line)
}

// A line without a number, as it waits.
fn plain_entry(line: &[u8]) -> Waiting
    requires { length line.now ≤ 96 }
    ensures { result ≡ plain_entry line.now }
{
    Waiting {
        number: None,
        n_parameter: None,
        text: bounded_text(line),
    }
}

// A line with its number, as it waits.
fn numbered_entry(line: &[u8]) -> Waiting
    requires { length line.now ≤ 96 }
    ensures { result ≡ numbered_entry line.now }
{
    Waiting {
        number: Some(line_number(line)),
        n_parameter: Some(n_parameter(line)),
        text: bounded_text(text(line)),
    }
}

// What the printer makes of a line: an entry, or the first rule that the line breaks.
#[tactic(auto, unfolding(crate::specs::Printer::judged))]
fn judge(last: u32, line: &[u8]) -> Result<Waiting, Reason>
    requires { length line.now ≤ 96 }
    ensures { result ≡ judged last line.now }
{
    if !begins_with_n(line) {
        Ok(plain_entry(line))
    } else if is_out_of_turn(last, line) {
        Err(Reason::WrongNumber)
    } else if !has_checksum(line) {
        Err(Reason::NoChecksum)
    } else if fails(line) {
        Err(Reason::Mismatch)
    } else {
        Ok(numbered_entry(line))
    }
}

// The last number after an entry was run: a text with `M110` sets it again to the entry's number, if it has one.
#[tactic(auto, unfolding(crate::specs::Printer::last_after))]
fn next_last(last: u32, entry: &Waiting) -> u32
    ensures { result ≡ last_after last entry.now }
{
    match entry.number {
        Some(number) if has_m110(entry.text.as_slice()) => number,
        _ => last,
    }
}
