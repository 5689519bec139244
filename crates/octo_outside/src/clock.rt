//! Moments in milliseconds.
ghost use Rattle.std.specs.Prelude.{◌≡◌, ℕ, ◌+◌, ◌≤◌, min, Option, Some, IfSome};
ghost use Rattle.byte_text.specs.Number.{most_u64};
ghost use Rattle.octo_outside.specs.Memory.{ClockData};
ghost use Rattle.octo_outside.specs.Traits.{NotBefore};

use std::marker::Model;

/// A clock in milliseconds. It cannot fail.
pub trait Clock {
    /// The moment that it shows, if recorded.
    ghost moment: { Self → Option ℕ };

    /// The moment; it stays.
    fn now(&mut self) -> u64
        ensures now { IfSome (moment self.old) (λ at. result ≡ at) }
        ensures stays { moment self.new ≡ moment self.old };

    /// Lets a moment pass; the clock does not go back.
    fn rest(&mut self)
        ensures later { NotBefore (moment self.old) (moment self.new) };
}

/// A clock that goes on by a stated step at each rest.
#[derive(Drop)]
pub struct MemoryClock {
    moment: u64,
    step: u64,
}

impl Model for MemoryClock {
    ghost Value = { ClockData };

    ghost view = { λ c. record { moment = c.moment; step = c.step } };
}

impl MemoryClock {
    /// A clock that shows this moment, and whose rests add this step, both in milliseconds.
    pub fn new(moment: u64, step: u64) -> Self
        ensures { result ≡ record { moment = moment; step = step } }
    {
        MemoryClock { moment, step }
    }
}

impl Clock for MemoryClock {
    ghost moment = { λ c. Some c.moment };

    fn now(&mut self) -> u64
        ensures now { result ≡ self.old.moment }
        ensures stays { self.new ≡ self.old }
    {
        self.moment
    }

    fn rest(&mut self)
        ensures stepped { self.new ≡ record self.old {
          moment = min (self.old.moment + self.old.step) most_u64;
        } }
        ensures later { self.old.moment ≤ self.new.moment }
    {
        self.moment = self.moment.saturating_add(self.step);
    }
}
