//! The calls of a form in memory, some of which fail.
use crate::CallList;
use std::marker::Model;

/// How many calls were made, how many of them failed, and which are to fail.
#[derive(Drop)]
pub struct Calls {
    made: u64,
    faults: u64,
    fail_at: CallList,
}

impl Model for Calls {
    ghost use Rattle.octo_outside.specs.Memory.{CallsData};

    ghost Value = { CallsData };

    ghost view = { λ c. record { made = c.made; faults = c.faults; fail_at = c.fail_at } };
}

impl Calls {
    ghost use Rattle.std.specs.Prelude.{◌≡◌, ⊤};
    ghost use Rattle.octo_outside.specs.Recorded.{Counts};
    ghost use Rattle.octo_outside.specs.Memory.{CallsData, one_more, is_listed};

    /// No call yet; those with these numbers, counted from 1, are to fail. Takes no memory.
    pub fn new(fail_at: CallList) -> Self
        ensures { result ≡ record { made = 0; faults = 0; fail_at = fail_at } }
    {
        Calls {
            made: 0,
            faults: 0,
            fail_at,
        }
    }

    /// How many calls were made, up to the last value of a u64.
    pub fn made(&self) -> u64
        ensures { result ≡ self.now.made }
    {
        self.made
    }

    /// Whether the latest call is one of these.
    pub fn is_latest_in(&self, list: &CallList) -> bool
        ensures { result ≡ is_listed list.now self.now.made }
    {
        list.as_slice().contains(&self.made)
    }

    /// Counts a call, and says whether it is one of those that are to fail.
    pub fn begin(&mut self) -> bool
        ensures fails { result ≡ is_listed self.old.fail_at (one_more self.old.made) }
        ensures counts { self.new ≡ record self.old { made = one_more self.old.made } }
    {
        self.made = self.made.saturating_add(1);
        self.is_latest_in(&self.fail_at)
    }

    /// Counts a failed call.
    pub fn fail(&mut self)
        ensures after { self.new ≡ record self.old { faults = one_more self.old.faults } }
        ensures counts { Counts ⊤ self.old.faults self.new.faults }
    {
        self.faults = self.faults.saturating_add(1);
    }
}
