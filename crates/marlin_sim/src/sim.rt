//! The simulator without its outside: bytes come in, replies and printed lines gather.
ghost use Rattle.std.specs.Prelude.{◌≡◌, ◌≤◌, ◌+◌, ◌++◌, false, codes, decimal};
ghost use Rattle.arrayvec.specs.ArrayVec.{array_vec_len};
ghost use Rattle.printer_model.specs.Printer.{log_line_of};
ghost use Rattle.octo_outside.specs.Lists.{with_line_feed};
ghost use Rattle.marlin_sim.specs.Run.{number_text, printed_line};

use crate::lines::Lines;
use crate::plan::SimPlan;
use crate::replies::Replies;
use crate::signed::{below_after, given, put_replies};
use byte_text::{ReplyLine, append, append_number};
use octo_outside::Blob;
use printer_model::{Oks, Printer, Ran, Taken};
use std::alloc::{AllocError, Global};
use std::marker::Model;

/// A printer, how far below 0 its last line number is, the lines on their way to it, and what is still to be written and
/// printed. If its number is below 0, the printer's own one is 0.
#[derive(Drop)]
pub struct Sim {
    printer: Printer,
    below: u32,
    lines: Lines,
    replies: Replies,
    text: Blob,
}

impl Model for Sim {
    ghost use Rattle.marlin_sim.specs.Sim.{SimData};

    ghost Value = { SimData };

    ghost view = { λ s. record {
      printer = s.printer;
      below = s.below;
      lines = s.lines;
      replies = s.replies;
      text = s.text;
    } };
}

// Adds the number of a line, if it has one, as it is printed before the line.
fn put_number(text: &mut ReplyLine, number: Option<u32>)
    requires { array_vec_len text.old + 12 ≤ 256 }
    ensures value { text.new.items ≡ text.old.items ++ number_text number }
    ensures short { array_vec_len text.new ≤ array_vec_len text.old + 12 }
{
    let Some(number) = number else {
        return;
    };
    append(text, b"N");
    append_number(text, number);
    append(text, b" ");
}

// A line that was run, as it is printed.
fn printed_line(ran: &Ran) -> ReplyLine
    ensures { result.items ≡ printed_line (log_line_of ran.now) }
{
    let mut line = ReplyLine::new();
    put_number(&mut line, ran.number);
    append(&mut line, ran.text.as_slice());
    append(&mut line, b"\n");
    line
}

// The acknowledgements of a printer, none of which is lost on a wire: the simulator itself leaves out those that are to be.
fn oks_of(numbered: bool) -> Oks
    ensures { result ≡ record { numbered = numbered; lost = false } }
{
    Oks {
        numbered,
        lost: false,
    }
}

impl Sim {
    ghost use Rattle.std.specs.Prelude.{◌≡◌, ◌≤◌, ◌<◌, ◌++◌, ℕ, List, [], true, false, length, IfOk, OnOk, OnErr};
    ghost use Rattle.marlin_sim.specs.Lines.{IsReceivedInPart};
    ghost use Rattle.marlin_sim.specs.Plan.{IsPlan};
    ghost use Rattle.marlin_sim.specs.Sim.{SimData, new_sim, FollowsModel, Keeps, IsStuck, Arrives, Steps, AfterArrival, AfterRunning, HasArrivedOnly, HaveArrivedOnly, HasRunOnly, StopsShort, work, IsIdle};

    /// A new printer before anything was received; `start` is to be written. Fails if out of memory.
    pub fn new(alloc: Global, plan: &SimPlan) -> Result<Self, AllocError>
        requires { IsPlan plan.now }
        ensures { IfOk result (λ s. s ≡ new_sim plan.now) }
    {
        Ok(Sim {
            printer: Printer::new(plan.last, plan.slots, oks_of(plan.numbered)),
            below: 0,
            lines: Lines::new(alloc),
            replies: Replies::new(alloc, plan.lost.as_slice())?,
            text: Blob::new(alloc),
        })
    }

    /// What is to be written.
    pub fn replies(&self) -> &[u8]
        ensures { result.now ≡ self.now.replies.text }
    {
        self.replies.as_slice()
    }

    /// What was to be written is.
    pub fn clear_replies(&mut self)
        ensures { self.new ≡ record self.old { replies = record self.old.replies { text = [] } } }
    {
        self.replies.clear();
    }

    /// What is to be printed.
    pub fn text(&self) -> &[u8]
        ensures { result.now ≡ self.now.text }
    {
        self.text.as_slice()
    }

    /// What was to be printed is.
    pub fn clear_text(&mut self)
        ensures { self.new ≡ record self.old { text = [] } }
    {
        self.text.clear();
    }

    /// Receives bytes. Fails if out of memory; then the first lines of them were received.
    pub fn receive(&mut self, plan: &SimPlan, bytes: &[u8]) -> Result<(), AllocError>
        requires { IsPlan plan.now }
        ensures follows { OnOk result
            ((input rest wrote printed : List ℕ)
            → FollowsModel plan.now input (bytes.now ++ rest) self.old wrote printed
            → FollowsModel plan.now input rest self.new wrote printed) }
        ensures part { OnErr result
            (IsReceivedInPart plan.now bytes.now self.old.lines self.new.lines) }
        ensures others { self.new ≡ record self.old { lines = self.new.lines } }
    {
        self.lines.receive(plan, bytes)
    }

    // Lets the next line arrive, and says whether it did. Without memory its replies may be missing.
    fn arrive_next(&mut self) -> Result<bool, AllocError>
        ensures ok { IfOk result (λ did. AfterArrival did self.old self.new) }
        ensures err { OnErr result (HasArrivedOnly self.old self.new) }
    {
        let Some(line) = self.lines.next() else {
            return Ok(false);
        };
        let before = self.below;
        let taken = self.printer.arrive(given(before, line));
        let below = below_after(before, line, &taken);
        match &taken {
            Taken::Full => Ok(false),
            _ => {
                self.lines.drop_next();
                self.below = below;
                put_replies(&mut self.replies, before, &taken)?;
                Ok(true)
            }
        }
    }

    // Lets lines arrive until none waits or the queue is full.
    fn arrive_all(&mut self) -> Result<(), AllocError>
        ensures kept { OnOk result (Keeps self.old self.new) }
        ensures arrives { OnOk result (Arrives self.old self.new) }
        ensures all { OnOk result (IsStuck self.new) }
        ensures work { OnOk result (work self.new ≤ work self.old) }
        ensures slots { OnOk result (self.new.printer.slots ≡ self.old.printer.slots) }
        ensures err { OnErr result (HaveArrivedOnly self.old self.new) }
        ensures text { self.new.text ≡ self.old.text }
    {
        while self.arrive_next()? {}
        Ok(())
    }

    // Runs the front of the queue, and says whether there was one. Without memory its reply may be missing, and its line.
    fn run_next(&mut self) -> Result<bool, AllocError>
        ensures ok { IfOk result (λ did. AfterRunning did self.old self.new) }
        ensures err { OnErr result (HasRunOnly self.old self.new) }
    {
        match self.printer.run_one() {
            None => Ok(false),
            Some(ran) => {
                self.replies.put(ran.reply.as_slice())?;
                self.text.append(printed_line(&ran).as_slice())?;
                Ok(true)
            }
        }
    }

    /// Lets lines arrive until none waits or the queue is full, runs a line, and says whether there was one. Fails if out of
    /// memory; then the last replies may be missing, and what is to be printed is as before.
    pub fn step(&mut self) -> Result<bool, AllocError>
        ensures steps { IfOk result (λ ran. Steps ran self.old self.new) }
        ensures kept { OnOk result (Keeps self.old self.new) }
        ensures idle { IfOk result
            (λ ran. ran ≡ false → 1 ≤ self.old.printer.slots → IsIdle self.new) }
        ensures work { IfOk result (λ ran. ran ≡ true → work self.new < work self.old) }
        ensures slots { OnOk result (self.new.printer.slots ≡ self.old.printer.slots) }
        ensures err { OnErr result (StopsShort self.old self.new) }
    {
        self.arrive_all()?;
        self.run_next()
    }
}
