//! What can happen between host and printer.
ghost use Rattle.std.specs.Prelude.{◌≡◌};
ghost use Rattle.printer_model.specs.World.{is_opened, is_send, is_loss};

use byte_text::{Line, ReplyLine};

/// One event of the world between host and printer. An event that can't happen changes nothing.
#[derive(Drop)]
pub enum WorldEvent {
    /// A link is made, and the printer's last line number is then this one. It needs a closed link and an empty queue.
    Opened { last: u32 },
    /// The host sends a line of at most 95 bytes over an open link.
    Send(Line),
    /// The printer takes the front of the wire to it, unless its queue is full.
    Arrive,
    /// The line at this place of the wire to the printer is lost; places are counted from 0.
    Lose { at: u32 },
    /// The reply line at this place of the wire from the printer is lost, if replies may be lost.
    LoseReply { at: u32 },
    /// The line at this place becomes another one, of at most 95 bytes, that begins with `N` and fails its checksum.
    Garble { at: u32, line: Line },
    /// The printer runs the front of its queue.
    Run,
    /// The printer restarts over an open link: its last line number is 0, its queue is empty, and it says `start`. What it
    /// executed stays executed.
    Restart,
    /// The printer says something that is neither `ok`, `Resend:` nor `start`, over an open link.
    Chatter(ReplyLine),
    /// The host takes the front of the wire from the printer, over an open link.
    Recv,
    /// The open link is closed: what is on both wires is gone, and what waits in the printer stays.
    Closed,
}

impl WorldEvent {
    /// Whether it opens a session.
    pub fn is_opened(&self) -> bool
        ensures { result ≡ is_opened self.now }
    {
        matches!(self, WorldEvent::Opened { .. })
    }

    /// Whether it is a line that the host sent.
    pub fn is_send(&self) -> bool
        ensures { result ≡ is_send self.now }
    {
        matches!(self, WorldEvent::Send(_))
    }

    /// Whether it is a line lost or corrupted on its way to the printer.
    pub fn is_loss(&self) -> bool
        ensures { result ≡ is_loss self.now }
    {
        matches!(self, WorldEvent::Lose { .. } | WorldEvent::Garble { .. })
    }
}
