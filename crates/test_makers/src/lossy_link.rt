//! A link in memory that loses replies.
ghost use Rattle.std.specs.Prelude.{◌≡◌, None};
ghost use Rattle.printer_link.specs.Memory.{link_kind, link_world};

use byte_text::{Line, ReplyLine};
use octo_outside::{CallList, Calls};
use printer_link::{Heard, Link, LinkFault, MemoryLink};
use std::marker::Model;

/// A link in memory of whose replies some are lost. It records no history, since no event of a history loses a reply.
#[derive(Drop)]
pub struct LossyLink {
    link: MemoryLink,
    // The replies that came, and those of them that are lost.
    replies: Calls,
}

impl Model for LossyLink {
    ghost use Rattle.printer_link.specs.Memory.{MemoryLinkData};

    ghost Value = { MemoryLinkData };

    ghost view = { λ l. l.link };
}

impl LossyLink {
    /// Over this link the replies with these numbers are lost, counted from 1 as they come.
    pub fn new(link: MemoryLink, lost: CallList) -> Self
        ensures { result ≡ link }
    {
        LossyLink {
            link,
            replies: Calls::new(lost),
        }
    }

    /// The link in memory.
    pub fn link(&self) -> &MemoryLink
        ensures { result.now ≡ self.now }
    {
        &self.link
    }

    /// Whether a link is made.
    pub fn is_up(&self) -> bool
        ensures { result ≡ (link_world self.now).linked }
    {
        self.link.is_up()
    }
}

impl Link for LossyLink {
    ghost state = { λ l. record {
      kind = link_kind l;
      past = None;
      calls = None;
      up = (link_world l).linked;
      faults = l.faults;
    } };

    fn dial(&mut self, name: &str) -> Result<(), LinkFault> {
        self.link.dial(name)
    }

    fn send(&mut self, line: &Line) -> Result<(), LinkFault> {
        self.link.send(line)
    }

    fn recv(&mut self, into: &mut ReplyLine) -> Result<Heard, LinkFault> {
        match self.link.recv(into)? {
            Heard::Line if self.replies.begin() => Ok(Heard::Nothing),
            heard => Ok(heard),
        }
    }

    fn hang_up(&mut self) {
        self.link.hang_up();
    }
}
