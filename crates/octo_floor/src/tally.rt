//! The counts of a floor's prints.
ghost use Rattle.std.specs.Prelude.{◌≡◌, ◌+◌, ◌<◌};
ghost use Rattle.octo_floor.specs.Counted.{is_done, is_failed, one_if};

use print_queue::{Ending, Outcome};

/// How many prints were started, are done and have failed.
#[derive(Clone, Copy, Debug, PartialEq, Eq)]
pub struct Tally {
    pub prints: u32,
    pub done: u32,
    pub failed: u32,
}

/// Nothing yet.
pub(crate) const NO_PRINTS: Tally = Tally {
    prints: 0,
    done: 0,
    failed: 0,
};

impl Tally {
    // One print more was started.
    pub(crate) fn after_start(self) -> Tally
        requires { self.prints < 4294967295 }
        ensures { result ≡ record self { prints = self.prints + 1 } }
    {
        Tally {
            prints: self.prints + 1,
            done: self.done,
            failed: self.failed,
        }
    }

    // One print ended.
    pub(crate) fn after_ending(self, ending: Ending) -> Tally
        requires done { self.done < 4294967295 }
        requires failed { self.failed < 4294967295 }
        ensures { result ≡ record self {
          done = self.done + one_if (is_done ending);
          failed = self.failed + one_if (is_failed ending);
        } }
    {
        match ending.outcome {
            Outcome::Done => Tally {
                prints: self.prints,
                done: self.done + 1,
                failed: self.failed,
            },
            Outcome::Failed => Tally {
                prints: self.prints,
                done: self.done,
                failed: self.failed + 1,
            },
            Outcome::Active => self,
            Outcome::Cancelled => self,
        }
    }
}
