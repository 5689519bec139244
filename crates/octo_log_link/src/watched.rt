//! What a logged link says to those who watch it.
use crate::link::LoggedLink;
use octo_outside::Sink;
use printer_link::Link;
use printer_link_cause::{Cause, WatchedLink};

impl<L: Link + WatchedLink + Drop, G: Sink + Drop> WatchedLink for LoggedLink<L, G> {
    ghost cause = { λ l. L.cause l.link };

    ghost pending = { λ l. L.pending l.link };

    fn cause(&self) -> Option<Cause> {
        self.link.cause()
    }

    fn is_pending(&self) -> bool {
        self.link.is_pending()
    }
}
