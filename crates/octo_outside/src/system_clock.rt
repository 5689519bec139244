//! The clock of the system.
ghost use Rattle.std.specs.Prelude.{◌≡◌, ◌≤◌, None};

use crate::Clock;
use std::time::Duration;
use std::{thread, time};

// How long one rest lasts, in milliseconds.
const REST: u64 = 1;

/// The system's clock, in milliseconds since a moment of the system's own. It does not record what it shows.
#[derive(Drop)]
pub struct SystemClock<R: Drop> {
    rt: R,
    last: u64,
}

impl<R: Drop> SystemClock<R> {
    /// The clock that this runtime reads.
    pub fn new(rt: R) -> Self
        ensures { result.last ≡ 0 }
    {
        SystemClock { rt, last: 0 }
    }
}

impl<R: time::Clock + Drop> Clock for SystemClock<R> {
    ghost moment = { λ _. None };

    /// The moment, never before one that was returned; the last one if the system's clock fails.
    fn now(&mut self) -> u64
        ensures kept { self.new.last ≡ result }
        ensures forward { self.old.last ≤ result }
    {
        if let Ok(time) = self.rt.monotonic() {
            let millis = u64::try_from(time.as_millis()).unwrap_or(u64::MAX);
            self.last = self.last.max(millis);
        }
        self.last
    }

    /// Sleeps for about a millisecond.
    fn rest(&mut self)
        ensures kept { self.new.last ≡ self.old.last }
    {
        thread::sleep(&self.rt, Duration::from_millis(REST));
    }
}
