//! What the desk makes of a turn of the link.
ghost use Rattle.std.specs.Prelude.{◌≡◌, ◌⊎◌, true, false, IfSome};
ghost use Rattle.job_desk.specs.Endings.{IsActive, IsEnding};
ghost use Rattle.job_desk.specs.Note.{after_ending, fail, hung_up, leave, note_fact, note_step, after_open, ready_at, with_acked};
ghost use Rattle.job_desk.specs.DeskViews.{MayNote};

use super::{Desk, Lines, Prints};
use crate::{Ending, LinkFact, Outcome, Point, State};

impl Prints {
    // The print is no longer active.
    fn end(&mut self, outcome: Outcome) -> Ending
        ensures ending { result ≡ record { print = self.old.greatest; outcome = outcome } }
        ensures after { self.new ≡ record self.old { active = false } }
    {
        self.active = false;
        Ending {
            print: self.greatest,
            outcome,
        }
    }
}

impl Desk {
    // Ends what is over by acknowledgement: no script line waits, and every issued line of the print is acknowledged.
    fn end(&mut self) -> Option<Ending>
        ensures ending { result ≡ (after_ending self.old).0 }
        ensures after { self.new ≡ (after_ending self.old).1 }
    {
        if !self.waiting.is_empty() {
            return None;
        }
        if self.lines.of_print > u64::from(self.lines.acked) {
            return None;
        }
        match self.state {
            State::Pausing => {
                self.state = State::Paused;
                None
            }
            State::Cancelling => {
                self.state = State::Operational;
                Some(self.prints.end(Outcome::Cancelled))
            }
            State::Finishing => {
                self.state = State::Operational;
                Some(self.prints.end(Outcome::Done))
            }
            _ => None,
        }
    }

    // The connection is gone: what waits is dropped, and an active print ends.
    fn leave(&mut self, state: State, outcome: Outcome) -> Option<Ending>
        requires { (state ≡ State.Offline) ⊎ (state ≡ State.Fault) }
        ensures ending { result ≡ (leave state outcome self.old).0 }
        ensures after { self.new ≡ (leave state outcome self.old).1 }
    {
        self.state = state;
        self.waiting.clear();
        self.manual.clear();
        self.stopped = false;
        self.linked = false;
        if self.prints.active {
            Some(self.prints.end(outcome))
        } else {
            None
        }
    }

    // A link is made, and a session begins: nothing was issued in it yet.
    fn open(&mut self)
        ensures { self.new ≡ after_open self.old }
    {
        self.lines = Lines {
            issued: 0,
            acked: 0,
            of_print: 0,
            of_poll: 0,
            last: 0,
        };
        self.linked = true;
    }

    // The hello was acknowledged.
    fn get_ready(&mut self, moment: u64)
        ensures { self.new ≡ ready_at self.old.state moment (record self.old { ready = true }) }
    {
        self.ready = true;
        if self.state == State::Connecting {
            self.state = State::Operational;
            self.poll_at = moment.saturating_add(self.poll_ms);
            self.probe_at = self.poll_at;
            self.waiting.add(Point::Connected, 0);
        }
    }

    // What the fact and the acknowledgements do.
    fn take_fact(&mut self, fact: &LinkFact, moment: u64) -> Option<Ending>
        ensures ending { result ≡ (note_fact fact.now moment self.old).0 }
        ensures after { self.new ≡ (note_fact fact.now moment self.old).1 }
    {
        match fact {
            LinkFact::Quiet => self.end(),
            LinkFact::Opened => {
                self.open();
                self.end()
            }
            LinkFact::Ready => {
                self.get_ready(moment);
                self.end()
            }
            LinkFact::Closed => self.hung_up(),
            LinkFact::NoPort => self.leave(State::Fault, Outcome::Failed),
            LinkFact::Failed | LinkFact::Ended(_) => self.fail(),
        }
    }

    // The link was hung up: a print that it cuts off is cancelled, or failed if the printer was stopped.
    fn hung_up(&mut self) -> Option<Ending>
        ensures ending { result ≡ (hung_up self.old.stopped self.old).0 }
        ensures after { self.new ≡ (hung_up self.old.stopped self.old).1 }
    {
        if self.stopped {
            self.leave(State::Fault, Outcome::Failed)
        } else {
            self.leave(State::Offline, Outcome::Cancelled)
        }
    }

    // The link or the session failed, after what this very turn completes.
    fn fail(&mut self) -> Option<Ending>
        ensures ending { result ≡ (fail (after_ending self.old)).0 }
        ensures after { self.new ≡ (fail (after_ending self.old)).1 }
    {
        let completed = self.end();
        let broken = self.leave(State::Fault, Outcome::Failed);
        completed.or(broken)
    }

    // This many lines are acknowledged.
    fn count_acked(&mut self, acked: u32, moment: u64)
        ensures after { self.new ≡ with_acked acked moment self.old }
        ensures going { IsActive self.old }
    {
        if self.lines.acked < acked {
            self.probe_at = moment.saturating_add(self.poll_ms);
        }
        self.lines.acked = acked;
    }

    /// Notes how many lines of the session are acknowledged and what a turn at this moment, in milliseconds, found of the
    /// link. Returns the ending of the active print if it ends: as Done, and as Cancelled unless the link was hung up, only
    /// once no script line waits and the last issued line of the print is acknowledged. After an ending no print is active.
    pub fn note(&mut self, acked: u32, fact: &LinkFact, moment: u64) -> Option<Ending>
        requires { MayNote acked fact.now self.old }
        ensures ending { result ≡ (note_step acked fact.now moment self.old).0 }
        ensures after { self.new ≡ (note_step acked fact.now moment self.old).1 }
        ensures of_print { IfSome result (λ ending. IsEnding acked fact.now self.old ending) }
        ensures rests { IfSome result (λ ending. self.new.active ≡ false) }
    {
        self.count_acked(acked, moment);
        let ending = self.take_fact(fact, moment);
        self.settle();
        ending
    }
}
