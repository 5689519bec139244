//! What a link over a port says to those who watch it.
use crate::boot::Stage;
use crate::dial::Dial;
use crate::link::PortLink;
use printer_link_cause::{Cause, WatchedLink};

impl<D: Dial + Drop> WatchedLink for PortLink<D> {
    ghost use Rattle.printer_link_socket.specs.Waiting.{is_connecting};

    ghost cause = { λ l. l.line.cause };

    ghost pending = { λ l. is_connecting l.boot };

    fn cause(&self) -> Option<Cause> {
        self.line.cause
    }

    fn is_pending(&self) -> bool {
        matches!(self.boot, Some(Stage::Connecting(_)))
    }
}
