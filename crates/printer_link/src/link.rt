//! A link to a printer: lines go out, reply lines come in, and what happened between is its recorded history.
//!
//! Source: Marlin's `MAX_CMD_SIZE`, 96, for the longest line; `BUFSIZE` for the buffer slots; `ADVANCED_OK` for
//! numbered acknowledgements.
ghost use Rattle.std.specs.Prelude.{◌≡◌, ◌≤◌, true, false, length};
ghost use Rattle.byte_text.specs.declared.texts.TheConstants.{MOST_LINE_BYTES};
ghost use Rattle.printer_link.specs.Calls.{LinkState, Dials, Sends, Hears, HangsUp};

use byte_text::{Line, ReplyLine};
use thiserror::Error;

/// What a call of `recv` found.
#[derive(Clone, Copy, Debug, PartialEq, Eq)]
pub enum Heard {
    /// A reply line.
    Line,
    /// Nothing has come.
    Nothing,
}

/// Why a call of a link failed.
#[derive(Clone, Copy, Debug, PartialEq, Eq, Error)]
pub enum LinkFault {
    /// The link lists no port of that name.
    #[error("no such port")]
    NoPort,
    /// The link failed and is down; its count of faults rose.
    #[error("the link failed")]
    Failed,
}

/// A link to one printer over named ports.
pub trait Link {
    /// What it says of itself: what no call changes, its history and its number of calls of `dial`, `send` and `recv`, if
    /// recorded, whether it is made, and how many calls failed.
    ghost state: { Self → LinkState };

    /// Makes a link to the port of that name. `NoPort` if no such port is listed, `Failed` if the link can't be made; none is made then.
    fn dial(&mut self, name: &str) -> Result<(), LinkFault>
        requires { (state self.old).up ≡ false }
        ensures { Dials (state self.old) name.now result (state self.new) };

    /// Sends a line of at most 95 bytes; the link writes the line end after it. If it fails, the link is down.
    fn send(&mut self, line: &Line) -> Result<(), LinkFault>
        requires open { (state self.old).up ≡ true }
        requires short { length line.now.items ≤ MOST_LINE_BYTES }
        ensures { Sends (state self.old) line.now.items result (state self.new) };

    /// Receives a reply line without its line end, cut to 256 bytes, or finds that nothing has come. If it fails, the link is down.
    fn recv(&mut self, into: &mut ReplyLine) -> Result<Heard, LinkFault>
        requires { (state self.old).up ≡ true }
        ensures { Hears (state self.old) result into.new.items (state self.new) };

    /// Closes the link if it is up.
    fn hang_up(&mut self)
        ensures { HangsUp (state self.old) (state self.new) };
}
