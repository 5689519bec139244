//! The clock of the system, whose rests a bell ends.
use crate::Ear;
use octo_outside::{Clock, SystemClock};
use std::time;

// How long one rest lasts, in milliseconds, and how long if no ring can end it.
const REST: u16 = 10;

const DEAF_REST: u16 = 1;

/// The system's clock. A ring of the bell ends a rest.
#[derive(Drop)]
pub struct EarClock<R: Drop> {
    clock: SystemClock<R>,
    ear: Ear,
}

impl<R: Drop> EarClock<R> {
    /// The clock that this runtime reads, with an ear for the bell.
    pub fn new(rt: R, ear: Ear) -> Self {
        EarClock {
            clock: SystemClock::new(rt),
            ear,
        }
    }
}

impl<R: time::Clock + Drop> Clock for EarClock<R> {
    ghost use Rattle.std.specs.Prelude.{None};

    ghost moment = { λ _. None };

    /// The moment, never before one that was returned; the last one if the system's clock fails.
    fn now(&mut self) -> u64 {
        self.clock.now()
    }

    /// Waits for a ring, for about 10 milliseconds at most, and for a millisecond with a deaf ear. If the thread has waited beside
    /// the bell since the last rest, it doesn't wait again.
    fn rest(&mut self) {
        if self.ear.is_deaf() {
            self.ear.wait(DEAF_REST);
        } else {
            self.ear.wait(REST);
        }
    }
}
