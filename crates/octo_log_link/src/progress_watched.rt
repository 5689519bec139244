//! What the link of such a print says to those who watch it.
use crate::progress::ProgressLink;
use octo_outside::{Clock, Sink};
use printer_link::Link;
use printer_link_cause::{Cause, WatchedLink};

impl<L: Link + WatchedLink + Drop, G: Sink + Drop, C: Clock + Drop> WatchedLink
    for ProgressLink<L, G, C> {
    ghost cause = { λ l. L.cause l.link };

    ghost pending = { λ l. L.pending l.link };

    fn cause(&self) -> Option<Cause> {
        self.link.cause()
    }

    fn is_pending(&self) -> bool {
        self.link.is_pending()
    }
}
