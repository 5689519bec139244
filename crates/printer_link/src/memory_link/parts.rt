//! What the calls of the link in memory do, part by part.
ghost use Rattle.std.specs.Prelude.{◌≡◌, ◌≤◌, ◌-◌, ◌∷◌, [], length, IfOk, OnOk, OnErr, ⊤};
ghost use Rattle.octo_outside.specs.Memory.{one_more, is_listed};
ghost use Rattle.octo_outside.specs.Recorded.{Counts};
ghost use Rattle.printer_model.specs.World.{IsFrontReply};
ghost use Rattle.printer_link.specs.Memory.{after_printer, before_reply, lost_among, with_replies, with_one_call, after_fault, with_added, with_one_recv, is_due, lists_name, link_world, next_fate, opening_last, send_events, LinkMoved, LinkRan, LinkReceived};
ghost use Rattle.printer_link.specs.Link.{dial_events};
ghost use Rattle.printer_model.specs.declared.event.WorldEvent.TheVariants as event;
ghost use Rattle.printer_link.specs.declared.link.Heard.TheVariants as heard_as;
ghost use Rattle.printer_link.specs.declared.link.LinkFault.TheVariants as fault;

use super::MemoryLink;
use crate::link::{Heard, LinkFault};
use byte_text::{Line, ReplyLine};
use std::alloc::AllocError;

impl MemoryLink {
    // Counts a call, and says whether it is one of those that fail.
    pub(super) fn begin(&mut self) -> bool
        ensures fails { result ≡ is_listed self.old.fail_at (one_more self.old.calls) }
        ensures counts { self.new ≡ with_one_call self.old }
    {
        self.calls.begin()
    }

    // Counts a call of `recv`, and says whether the printer runs a line at it.
    pub(super) fn begin_recv(&mut self) -> bool
        ensures due { result ≡ is_due self.old.slow (one_more self.old.recvs) }
        ensures counts { self.new ≡ with_one_recv self.old }
    {
        self.recvs = self.recvs.saturating_add(1);
        self.recvs % (u64::from(self.slow) + 1) == 0
    }

    // Whether the printer restarts at this call of `recv`.
    pub(super) fn restarts(&self) -> bool
        ensures { result ≡ is_listed self.now.restart_at self.now.recvs }
    {
        self.restart_at.as_slice().contains(&self.recvs)
    }

    // Counts a failure, and closes the link if one is made.
    pub(super) fn fail(&mut self) -> LinkFault
        ensures fault { result ≡ fault.Failed }
        ensures after { self.new ≡ after_fault self.old }
        ensures counts { Counts ⊤ self.old.faults self.new.faults }
    {
        self.story.close();
        self.calls.fail();
        LinkFault::Failed
    }

    // Whether a name is listed.
    pub(super) fn lists(&self, name: &str) -> bool
        ensures lists { result ≡ lists_name self.now.names name.now }
        ensures some { 1 ≤ self.now.story.slots }
        ensures few { self.now.story.slots ≤ 16 }
    {
        self.names
            .as_slice()
            .iter()
            .any(|listed| listed.as_str() == name)
    }

    // The printer runs all that waits, and a link is made.
    pub(super) fn make_link(&mut self) -> Result<(), AllocError>
        ensures ok { OnOk result (self.new
            ≡ with_added self.old (dial_events (link_world self.old)
            (opening_last self.old.story self.old.last))) }
        ensures err { OnErr result (LinkRan self.old self.new) }
    {
        self.story.dial(self.last)
    }

    // A line is sent and meets its fate.
    pub(super) fn transmit(&mut self, line: &Line) -> Result<(), AllocError>
        ensures ok { OnOk result (self.new
            ≡ with_added self.old (send_events (link_world self.old) line.now
            (next_fate self.old.story))) }
        ensures err { OnErr result (self.new ≡ self.old) }
    {
        self.story.send(line)
    }

    // What the printer does before a reply is received.
    fn before_reply(&mut self, restarts: bool, due: bool) -> Result<(), AllocError>
        ensures ok { OnOk result (self.new
            ≡ with_added self.old (before_reply restarts due (link_world self.old))) }
        ensures err { OnErr result (LinkMoved self.old self.new) }
    {
        self.story.before_reply(restarts, due)
    }

    // The listed ones of the replies from a place on are lost, and all of them count.
    fn lose_replies(&mut self, from: usize) -> Result<(), AllocError>
        ensures ok { let count = length (link_world self.old).down - from in OnOk result (self.new
            ≡ with_replies count (with_added self.old
            (lost_among self.old.lost (one_more self.old.replies) from count))) }
        ensures err { OnErr result (LinkMoved self.old self.new) }
    {
        let count = self.story.world().replies().saturating_sub(from);
        let first = self.replies.saturating_add(1);
        self.story.lose_replies(self.lost.as_slice(), first, from)?;
        self.replies = self.replies.saturating_add(count as u64);
        Ok(())
    }

    // What happens before a reply is received: what the printer does, and which of its replies are lost.
    pub(super) fn let_print(&mut self, restarts: bool, due: bool) -> Result<(), AllocError>
        ensures ok { OnOk result (self.new ≡ after_printer restarts due self.old) }
        ensures err { OnErr result (LinkMoved self.old self.new) }
    {
        let from = self.story.world().replies();
        self.before_reply(restarts, due)?;
        self.lose_replies(from)
    }

    // Takes the front of the wire from the printer, if there is one.
    pub(super) fn take_front(&mut self, into: &mut ReplyLine) -> Result<Heard, AllocError>
        ensures line { IfOk result (λ got. got ≡ heard_as.Line
            → (self.new ≡ with_added self.old (event.Recv ∷ []))
            × IsFrontReply into.new.items (link_world self.old).down) }
        ensures nothing { IfOk result (λ got. got ≡ heard_as.Nothing
            → (self.new ≡ self.old) × ((link_world self.old).down ≡ [])) }
        ensures err { OnErr result (self.new ≡ self.old) }
    {
        self.story.receive(into)
    }

    // What happens before a reply is received, and then the next one is taken.
    pub(super) fn take_reply(
        &mut self,
        restarts: bool,
        due: bool,
        into: &mut ReplyLine,
    ) -> Result<Heard, AllocError>
        ensures ok { IfOk result (λ got.
            LinkReceived restarts due into.new.items got self.old self.new) }
        ensures err { OnErr result (LinkMoved self.old self.new) }
    {
        self.let_print(restarts, due)?;
        self.take_front(into)
    }
}
