//! Lines on their way to the printer.
ghost use Rattle.std.specs.Prelude.{◌≡◌, ◌≤◌, ◌+◌, ◌∷◌, ◌++◌, [], length, MatchOption};
ghost use Rattle.byte_text.specs.declared.texts.TheConstants.{MOST_LINE_BYTES};
ghost use Rattle.octo_outside.specs.Memory.{is_listed};
ghost use Rattle.printer_model.specs.Corrupt.{corrupted};
ghost use Rattle.marlin_sim.specs.Lines.{cut, ends_with_digit, arriving};

use crate::cuts::split_at_first;
use crate::plan::SimPlan;
use arrayvec::ArrayVec;
use byte_text::{MOST_LINE_BYTES, append, bounded_text};
use octo_outside::CallList;
use printer_model::corrupted;
use std::alloc::{AllocError, Global};
use std::collections::VecDeque;
use std::marker::Model;

/// The bytes of a line that count.
pub type CutLine = ArrayVec<u8, MOST_LINE_BYTES>;

// Adds bytes to a line as far as they count.
fn put_cut(line: &mut CutLine, bytes: &[u8])
    ensures { line.new.items ≡ cut (line.old.items ++ bytes.now) }
{
    let room = MOST_LINE_BYTES - line.len();
    append(line, &bytes[..room.min(bytes.len())]);
}

// Whether a received line is listed.
fn is_listed(lines: &CallList, number: u64) -> bool
    ensures { result ≡ is_listed lines.now number }
{
    lines.as_slice().contains(&number)
}

// Whether a line's last byte is a digit.
fn ends_with_digit(line: &CutLine) -> bool
    ensures { result ≡ ends_with_digit line.now.items }
{
    match line.as_slice().last() {
        Some(byte) => byte.is_ascii_digit(),
        None => false,
    }
}

// The line with another last digit.
#[tactic(auto, unfolding(printer_model::specs::Corrupt::corrupted))]
fn corrupted_line(line: &CutLine) -> CutLine
    ensures { result.items ≡ corrupted line.now.items }
{
    let line = corrupted(&bounded_text(line.as_slice()));
    bounded_text(line.as_slice())
}

// What arrives of the received line of that number, if it does.
#[tactic(auto, unfolding(crate::specs::Lines::arriving))]
fn arriving(plan: &SimPlan, number: u64, line: CutLine) -> Option<CutLine>
    ensures { MatchOption result (arriving plan.now number line.items ≡ [])
        (λ l. arriving plan.now number line.items ≡ l.items ∷ []) }
{
    if is_listed(&plan.drop, number) {
        return None;
    }
    if !is_listed(&plan.corrupt, number) {
        return Some(line);
    }
    if ends_with_digit(&line) {
        return Some(corrupted_line(&line));
    }
    None
}

/// The lines that wait to arrive, the beginning of the next one, and how many were received.
#[derive(Drop)]
pub struct Lines {
    waiting: VecDeque<CutLine>,
    begun: CutLine,
    received: u64,
}

impl Model for Lines {
    ghost use Rattle.std.specs.Prelude.{map};
    ghost use Rattle.marlin_sim.specs.Lines.{LinesData};

    ghost Value = { LinesData };

    ghost view = { λ l. record {
      waiting = map (λ w. w.items) l.waiting.items;
      begun = l.begun.items;
      received = l.received;
    } };
}

impl Lines {
    ghost use Rattle.std.specs.Prelude.{◌≡◌, ◌≤◌, ◌∷◌, ◌++◌, ℕ, List, [], length, take, drop, MatchOption, OnOk, OnErr};
    ghost use Rattle.octo_outside.specs.Memory.{one_more};
    ghost use Rattle.marlin_sim.specs.Plan.{IsPlan};
    ghost use Rattle.marlin_sim.specs.Lines.{LinesData, cut, arriving, to_come, IsReceivedInPart};

    /// Nothing was received yet; takes no memory.
    pub fn new(alloc: Global) -> Self
        ensures { result ≡ record { waiting = []; begun = []; received = 0 } }
    {
        Lines {
            waiting: VecDeque::new(alloc),
            begun: CutLine::new(),
            received: 0,
        }
    }

    /// The next line to arrive, if one waits.
    pub fn next(&self) -> Option<&[u8]>
        ensures { MatchOption result (self.now.waiting ≡ [])
            (λ line. (self.now.waiting ≡ line.now ∷ drop 1 self.now.waiting)
            × (length line.now ≤ MOST_LINE_BYTES)) }
    {
        match self.waiting.front() {
            Some(line) => Some(line.as_slice()),
            None => None,
        }
    }

    /// The next line has arrived.
    pub fn drop_next(&mut self)
        ensures { self.new ≡ record self.old { waiting = drop 1 self.old.waiting } }
    {
        let _ = self.waiting.pop_front();
    }

    // Adds bytes to the beginning of the next line.
    fn begin(&mut self, bytes: &[u8])
        ensures { self.new ≡ record self.old { begun = cut (self.old.begun ++ bytes.now) } }
    {
        put_cut(&mut self.begun, bytes);
    }

    // The line that was begun, with these bytes.
    fn begun_line(&self, bytes: &[u8]) -> CutLine
        ensures { result.items ≡ cut (self.now.begun ++ bytes.now) }
    {
        let mut line = bounded_text(self.begun.as_slice());
        put_cut(&mut line, bytes);
        line
    }

    // Without memory all is as before.
    fn push(&mut self, line: CutLine) -> Result<(), AllocError>
        ensures ok { OnOk result
            (self.new ≡ record self.old { waiting = self.old.waiting ++ line.items ∷ [] }) }
        ensures err { OnErr result (self.new ≡ self.old) }
    {
        self.waiting.push_back(line)?;
        Ok(())
    }

    // The number of the line that was begun.
    fn number(&self) -> u64
        ensures { result ≡ one_more self.now.received }
    {
        self.received.saturating_add(1)
    }

    // The line that was begun is whole, and counts.
    fn count_line(&mut self)
        ensures { self.new
            ≡ record self.old { begun = []; received = one_more self.old.received } }
    {
        self.begun.clear();
        self.received = self.number();
    }

    // Receives the end of a line; what is to arrive of it waits. Without memory all is as before.
    fn end_line(&mut self, plan: &SimPlan, bytes: &[u8]) -> Result<(), AllocError>
        ensures ok { OnOk result
            (self.new ≡ record {
              waiting = self.old.waiting
                  ++ arriving plan.now (one_more self.old.received)
                  (cut (self.old.begun ++ bytes.now));
              begun = [];
              received = one_more self.old.received;
            }) }
        ensures err { OnErr result (self.new ≡ self.old) }
    {
        if let Some(line) = arriving(plan, self.number(), self.begun_line(bytes)) {
            self.push(line)?;
            self.count_line();
            return Ok(());
        }
        self.count_line();
        Ok(())
    }

    /// Receives bytes. Fails if out of memory; then the first lines of them were received.
    pub fn receive(&mut self, plan: &SimPlan, bytes: &[u8]) -> Result<(), AllocError>
        requires { IsPlan plan.now }
        ensures ok { OnOk result
            ((more : List ℕ)
            → to_come plan.now self.new more ≡ to_come plan.now self.old (bytes.now ++ more)) }
        ensures err { OnErr result (IsReceivedInPart plan.now bytes.now self.old self.new) }
    {
        let mut rest = bytes;
        while let Some((piece, after)) = split_at_first(rest, b'\n') {
            self.end_line(plan, piece)?;
            rest = after;
        }
        self.begin(rest);
        Ok(())
    }
}
