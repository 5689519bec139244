//! A counter at which rounds pass before each ask.
ghost use Rattle.std.specs.Prelude.{◌≡◌};

use job_desk::Note;
use octo_asks::{Answer, Counter, Entry, MemoryCounter, Next};

// A counter in memory at which this number of rounds passes before each ask.
#[derive(Drop)]
pub(super) struct SlowCounter {
    counter: MemoryCounter,
    rounds: u64,
    // How many of them are left before the next ask.
    left: u64,
}

impl SlowCounter {
    pub(super) fn new(counter: MemoryCounter, rounds: u64) -> SlowCounter
        ensures { result.counter ≡ counter }
    {
        SlowCounter {
            counter,
            rounds,
            left: rounds,
        }
    }

    // The history, `None` only after memory ran out.
    pub(super) fn entries(&self) -> Option<&[Entry]> {
        self.counter.entries()
    }
}

impl Counter for SlowCounter {
    ghost use Rattle.octo_asks.specs.Place.{no_place};

    ghost state = { λ c. record {
      place = no_place;
      past = c.counter.past;
      given = c.counter.given;
      closed = c.counter.closed;
    } };

    fn next(&mut self) -> Next {
        if self.left > 0 {
            self.left -= 1;
            return Next::Nothing;
        }
        self.left = self.rounds;
        self.counter.next()
    }

    fn answer(&mut self, worker: u8, moment: u64, answer: Answer) {
        self.counter.answer(worker, moment, answer);
    }

    fn own(&mut self, moment: u64, answer: Answer) {
        self.counter.own(moment, answer);
    }

    fn note(&mut self, note: Note) {
        self.counter.note(note);
    }

    fn close(&mut self) {
        self.counter.close();
    }
}
