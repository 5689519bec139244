//! The counter of a host, whose entries are logged.
ghost use Rattle.std.specs.Prelude.{◌≡◌, false};
ghost use Rattle.octo_log.specs.Logged.{Logs};
ghost use Rattle.octo_log_history.specs.Story.{answer_line, answer_paused, is_accepted};
ghost use Rattle.octo_log_history.specs.declared.press.Press.TheVariants as press;

use crate::lines::{log_note, log_press, note_paused};
use crate::press::{Press, is_accepted, press_next};
use job_desk::Note;
use octo_asks::{Answer, Counter, Next};
use octo_outside::Sink;

/// A counter with a log: a line says that a print was paused or resumed, that a line `M112` was issued, which stops the printer, and
/// why a session ended by its own rules, as the command `print` reports it. What else happens has its line by the link, the keeper,
/// the shelf or a door.
#[derive(Drop)]
pub struct LoggedCounter<C: Counter + Drop, G: Sink + Drop> {
    counter: C,
    log: G,
    // What the ask that was given out last wants of the print.
    press: Press,
    // Whether the print is paused.
    is_paused: bool,
}

impl<C: Counter + Drop, G: Sink + Drop> LoggedCounter<C, G> {
    /// A counter with its log, over which no print is paused.
    pub fn new(counter: C, log: G) -> Self
        ensures { result ≡ record {
          counter = counter;
          log = log;
          press = press.Other;
          is_paused = false;
        } }
    {
        LoggedCounter {
            counter,
            log,
            press: Press::Other,
            is_paused: false,
        }
    }

    /// The log.
    pub fn log(&self) -> &G
        ensures { result.now ≡ self.now.log }
    {
        &self.log
    }

    /// The counter again.
    pub fn into_counter(self) -> C
        ensures { result ≡ self.counter }
    {
        let LoggedCounter {
            counter,
            log: _,
            press: _,
            is_paused: _,
        } = self;
        counter
    }

    // Logs the answer to the ask that was given out.
    fn log_answer(&mut self, accepted: bool)
        ensures counter { self.new.counter ≡ self.old.counter }
        ensures press { self.new.press ≡ self.old.press }
        ensures logged { (x : Answer) → is_accepted x ≡ accepted
            → Logs (answer_line self.old.press self.old.is_paused x)
            (G.written self.old.log) (G.written self.new.log)
            (G.faults self.old.log) (G.faults self.new.log) }
        ensures paused { (x : Answer) → is_accepted x ≡ accepted
            → self.new.is_paused ≡ answer_paused self.old.press self.old.is_paused x }
    {
        if accepted {
            log_press(&mut self.log, self.press, self.is_paused);
            self.is_paused = self.press.paused_by(self.is_paused);
        }
    }
}

impl<C: Counter + Drop, G: Sink + Drop> Counter for LoggedCounter<C, G> {
    ghost use Rattle.std.specs.Prelude.{◌≡◌, true, false, [], ◌∷◌, None, IfSome};
    ghost use Rattle.octo_outside.specs.Recorded.{Adds};
    ghost use Rattle.octo_asks.specs.declared.entry.Entry.TheVariants as entry;
    ghost use Rattle.octo_asks.specs.History.{IsGiven, ask_given, own_call};
    ghost use Rattle.octo_log.specs.Logged.{Logs};
    ghost use Rattle.octo_log_history.specs.Story.{answer_line, answer_paused, note_lines, note_paused, press_next};

    ghost state = { λ l. C.state l.counter };

    fn next(&mut self) -> Next
        requires answered { (C.state self.old.counter).given ≡ None }
        requires open { (C.state self.old.counter).closed ≡ false }

        ensures past { (C.state self.new.counter).past ≡ (C.state self.old.counter).past }
        ensures given { (C.state self.new.counter).given ≡ ask_given result }
        ensures open { (C.state self.new.counter).closed ≡ false }
        ensures place { (C.state self.new.counter).place ≡ (C.state self.old.counter).place }

        ensures press { self.new.press ≡ press_next result }
        ensures paused { self.new.is_paused ≡ self.old.is_paused }
        ensures log { self.new.log ≡ self.old.log }
    {
        let next = self.counter.next();
        self.press = press_next(&next);
        next
    }

    fn answer(&mut self, worker: u8, moment: u64, answer: Answer)
        requires given { IsGiven worker (C.state self.old.counter).given }
        requires open { (C.state self.old.counter).closed ≡ false }

        ensures past { IfSome (C.state self.old.counter).given
            (λ one. Adds (C.state self.old.counter).past (C.state self.new.counter).past
            (entry.Call worker one.ask moment answer ∷ [])) }
        ensures given { (C.state self.new.counter).given ≡ None }
        ensures open { (C.state self.new.counter).closed ≡ false }
        ensures place { (C.state self.new.counter).place ≡ (C.state self.old.counter).place }

        // The line of the log.
        ensures logged { Logs (answer_line self.old.press self.old.is_paused answer)
            (G.written self.old.log) (G.written self.new.log)
            (G.faults self.old.log) (G.faults self.new.log) }
        ensures paused { self.new.is_paused
            ≡ answer_paused self.old.press self.old.is_paused answer }
        ensures press { self.new.press ≡ self.old.press }
    {
        let accepted = is_accepted(&answer);
        self.counter.answer(worker, moment, answer);
        self.log_answer(accepted);
    }

    fn own(&mut self, moment: u64, answer: Answer)
        requires open { (C.state self.old.counter).closed ≡ false }

        ensures past { Adds (C.state self.old.counter).past (C.state self.new.counter).past
            (own_call moment answer ∷ []) }
        ensures given { (C.state self.new.counter).given ≡ (C.state self.old.counter).given }
        ensures open { (C.state self.new.counter).closed ≡ false }
        ensures place { (C.state self.new.counter).place ≡ (C.state self.old.counter).place }

        ensures rest { self.new ≡ record self.old { counter = self.new.counter } }
    {
        self.counter.own(moment, answer);
    }

    fn note(&mut self, note: Note)
        requires open { (C.state self.old.counter).closed ≡ false }

        ensures past { Adds (C.state self.old.counter).past (C.state self.new.counter).past
            (entry.Note note ∷ []) }
        ensures given { (C.state self.new.counter).given ≡ (C.state self.old.counter).given }
        ensures open { (C.state self.new.counter).closed ≡ false }
        ensures place { (C.state self.new.counter).place ≡ (C.state self.old.counter).place }

        // The lines of the log.
        ensures logged { Logs (note_lines note)
            (G.written self.old.log) (G.written self.new.log)
            (G.faults self.old.log) (G.faults self.new.log) }
        ensures paused { self.new.is_paused ≡ note_paused note.fact self.old.is_paused }
        ensures press { self.new.press ≡ self.old.press }
    {
        log_note(&mut self.log, &note);
        self.is_paused = note_paused(note.fact, self.is_paused);
        self.counter.note(note);
    }

    fn close(&mut self)
        requires answered { (C.state self.old.counter).given ≡ None }
        requires open { (C.state self.old.counter).closed ≡ false }

        ensures past { Adds (C.state self.old.counter).past (C.state self.new.counter).past
            (entry.Close ∷ []) }
        ensures given { (C.state self.new.counter).given ≡ None }
        ensures closed { (C.state self.new.counter).closed ≡ true }
        ensures place { (C.state self.new.counter).place ≡ (C.state self.old.counter).place }

        ensures rest { self.new ≡ record self.old { counter = self.new.counter } }
    {
        self.counter.close();
    }
}
