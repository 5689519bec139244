//! How a worker asks.
use crate::{Answer, Ask};
use thiserror::Error;

/// The host has ended, and never took the ask.
#[derive(Clone, Copy, Debug, PartialEq, Eq, Error)]
#[error("host: it has ended")]
pub struct Closed;

/// A worker's place at the counter.
pub trait Asker {
    ghost use Rattle.octo_asks.specs.Calls.{AskerState, Asks, LooksWhetherClosed};

    /// What it says of itself: its table and seat, which stay, the finished calls of this worker, if they are recorded, and whether it
    /// saw that the host has ended.
    ghost state: { Self → AskerState };

    /// Asks, and waits for the answer. Fails if the host has ended.
    fn ask(&mut self, ask: Ask) -> Result<Answer, Closed>
        ensures { Asks (state self.old) ask result (state self.new) };

    /// Whether the host has ended.
    fn closed(&mut self) -> bool
        ensures { LooksWhetherClosed (state self.old) result (state self.new) };
}
