//! A clock in memory that lets the workers go on.
use octo_outside::{Clock, MemoryClock};
use std::thread;
use std::time::Duration;

// A clock in memory whose rests take a millisecond each, so that workers come to ask meanwhile.
#[derive(Drop)]
pub(super) struct RealRests<R: Drop> {
    rt: R,
    clock: MemoryClock,
}

impl<R: Copy + Drop> RealRests<R> {
    // A clock whose rests add five milliseconds.
    pub(super) fn new(rt: &R) -> Self {
        RealRests {
            rt: *rt,
            clock: MemoryClock::new(0, 5),
        }
    }
}

impl<R: std::time::Clock + Drop> Clock for RealRests<R> {
    ghost use Rattle.std.specs.Prelude.{None};

    ghost moment = { λ _. None };

    fn now(&mut self) -> u64 {
        self.clock.now()
    }

    fn rest(&mut self) {
        thread::sleep(&self.rt, Duration::from_millis(1));
        self.clock.rest();
    }
}
