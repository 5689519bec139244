//! What a link says to those who watch it.
ghost use Rattle.std.specs.Prelude.{◌≡◌, Bool, Option};
ghost use Rattle.printer_link_cause.specs.declared.cause.Cause.{Cause};

use crate::cause::Cause;
use printer_link::MemoryLink;

/// What a link knows of itself beyond what its calls return.
pub trait WatchedLink {
    /// Why the last call that failed did, if the link knows it.
    ghost cause: { Self → Option Cause };

    /// Whether the link is still being made: it is up, and no printer has accepted it yet.
    ghost pending: { Self → Bool };

    /// Why the last call that failed did; `None` if no call has failed, or the link doesn't know it.
    fn cause(&self) -> Option<Cause>
        ensures { result ≡ cause self.now };

    /// Whether the link is still being made.
    fn is_pending(&self) -> bool
        ensures { result ≡ pending self.now };
}

/// A link in memory is made at once, and knows no cause.
impl WatchedLink for MemoryLink {
    ghost use Rattle.std.specs.Prelude.{None, false};

    ghost cause = { λ _. None };

    ghost pending = { λ _. false };

    fn cause(&self) -> Option<Cause> {
        None
    }

    fn is_pending(&self) -> bool {
        false
    }
}
