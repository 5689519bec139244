//! The counter at which a print host takes asks and returns answers.
use crate::{Answer, Ask, Entry};
use job_desk::Note;

/// A worker's ask that was given out and isn't answered.
#[derive(Drop)]
pub struct Given {
    pub worker: u8,
    pub ask: Ask,
}

/// What comes next at the counter.
#[derive(Drop)]
pub enum Next {
    /// No worker asks.
    Nothing,
    /// A worker asks.
    Asked { worker: u8, ask: Ask },
}

/// Where asks come from and answers go to. It keeps the history of a host.
pub trait Counter {
    ghost use Rattle.std.specs.Prelude.{◌≡◌, false, None};
    ghost use Rattle.octo_asks.specs.Calls.{CounterState, GivesNext, Answers, Notes, Closes};
    ghost use Rattle.octo_asks.specs.declared.entry.Entry.TheVariants as entry;
    ghost use Rattle.octo_asks.specs.History.{IsGiven, own_call};

    /// What it says of itself: its table and seat, which stay, the history, `None` once an entry was lost, the ask that was given out
    /// and isn't answered, and whether the host has ended.
    ghost state: { Self → CounterState };

    /// The next ask, which is given out, or nothing. Every earlier one was answered.
    fn next(&mut self) -> Next
        requires answered { (state self.old).given ≡ None }
        requires open { (state self.old).closed ≡ false }
        ensures { GivesNext (state self.old) result (state self.new) };

    /// Answers the ask that was given out, at a moment in milliseconds.
    fn answer(&mut self, worker: u8, moment: u64, answer: Answer)
        requires given { IsGiven worker (state self.old).given }
        requires open { (state self.old).closed ≡ false }
        ensures { Answers (state self.old) worker moment answer (state self.new) };

    /// Adds what the host answered to its own ask, at a moment in milliseconds.
    fn own(&mut self, moment: u64, answer: Answer)
        requires open { (state self.old).closed ≡ false }
        ensures { Notes (state self.old) (own_call moment answer) (state self.new) };

    /// Adds what a turn of the link did.
    fn note(&mut self, note: Note)
        requires open { (state self.old).closed ≡ false }
        ensures { Notes (state self.old) (entry.Note note) (state self.new) };

    /// The host ends. Every ask was answered.
    fn close(&mut self)
        requires answered { (state self.old).given ≡ None }
        requires open { (state self.old).closed ≡ false }
        ensures { Closes (state self.old) (state self.new) };
}
