//! A link to the printer in memory, which loses and corrupts lines, loses replies and fails by a schedule.
ghost use Rattle.std.specs.Prelude.{◌≡◌, ◌≤◌, true, false, IfOk, OnOk, OnErr, IsErrOf, Err, length, count_by};
ghost use Rattle.byte_text.specs.declared.texts.TheConstants.{MOST_LINE_BYTES};
ghost use Rattle.octo_outside.specs.Memory.{one_more, is_listed};
ghost use Rattle.printer_model.specs.World.{is_loss};
ghost use Rattle.printer_model.specs.Executed.{executed};
ghost use Rattle.printer_link.specs.Memory.{with_one_call, closing_events, after_fault, with_added, with_one_recv, is_due, lists_name, link_state, link_world, new_link, next_fate, opening_last, send_events, sends, LinkReceived};
ghost use Rattle.printer_link.specs.Calls.{Dials, Sends, Hears, HangsUp};
ghost use Rattle.printer_link.specs.Link.{dial_events};
ghost use Rattle.printer_link.specs.declared.link.LinkFault.TheVariants as fault;

use crate::link::{Heard, Link, LinkFault};
use crate::schedule::Schedule;
use crate::story::Story;
use byte_text::{Line, ReplyLine};
use octo_outside::{CallList, Calls, NameList};
use printer_model::{Executed, Oks};
use std::alloc::{AllocError, Global};
use std::marker::Model;

mod parts;

/// A link to a printer in memory. It records its history.
#[derive(Drop)]
pub struct MemoryLink {
    alloc: Global,
    story: Story,
    names: NameList,
    last: u32,
    slow: u32,
    restart_at: CallList,
    lost: CallList,
    calls: Calls,
    recvs: u64,
    // How many replies joined the wire from the printer.
    replies: u64,
}

impl Model for MemoryLink {
    ghost use Rattle.std.specs.Prelude.{◌≤◌};
    ghost use Rattle.printer_link.specs.Memory.{MemoryLinkData};

    ghost Value = { MemoryLinkData };

    ghost view = { λ l. record {
      story = l.story;
      names = l.names;
      last = l.last;
      slow = l.slow;
      fail_at = l.calls.fail_at;
      restart_at = l.restart_at;
      lost = l.lost;
      calls = l.calls.made;
      recvs = l.recvs;
      replies = l.replies;
      faults = l.calls.faults;
    } };

    ghost invariant = { λ l. (1 ≤ l.story.slots) × (l.story.slots ≤ 16) };
}

impl MemoryLink {
    /// A link that does as the schedule says, to a printer of 1 to 16 buffer slots that has run nothing. Fails if out of memory.
    pub fn new(alloc: Global, schedule: Schedule) -> Result<Self, AllocError>
        requires some { 1 ≤ schedule.slots }
        requires few { schedule.slots ≤ 16 }
        ensures { IfOk result (λ l. l ≡ new_link schedule) }
    {
        let Schedule {
            names,
            last,
            slots,
            numbered,
            fates,
            slow,
            fail_at,
            restart_at,
            lost,
        } = schedule;
        let oks = Oks {
            numbered,
            lost: !lost.as_slice().is_empty(),
        };
        Ok(MemoryLink {
            alloc,
            story: Story::new(alloc, slots, oks, fates),
            names,
            last,
            slow,
            restart_at,
            lost,
            calls: Calls::new(fail_at),
            recvs: 0,
            replies: 0,
        })
    }

    /// Whether a link is made.
    pub fn is_up(&self) -> bool
        ensures { result ≡ (link_world self.now).linked }
    {
        self.story.world().is_linked()
    }

    /// The number that the printer has when the first link is made.
    pub fn first_number(&self) -> u32
        ensures { result ≡ self.now.last }
    {
        self.last
    }

    /// How many lines were sent.
    pub fn sends(&self) -> u64
        ensures { result ≡ sends self.now.story.past }
    {
        self.story
            .past()
            .iter()
            .filter(|event| event.is_send())
            .count() as u64
    }

    /// How many lines were lost or corrupted.
    pub fn losses(&self) -> u64
        ensures { result ≡ count_by is_loss self.now.story.past }
    {
        self.story
            .past()
            .iter()
            .filter(|event| event.is_loss())
            .count() as u64
    }

    /// The lines that the printer ran in a session, without those of the hello's number; the first session is 1. Fails if out of memory.
    pub fn executed(&self, session: u32) -> Result<Executed, AllocError>
        ensures { IfOk result (λ e. e ≡ executed self.now.story.slots self.now.story.oks
            self.now.story.past session) }
    {
        Executed::of_session(
            self.alloc,
            self.story.slots(),
            self.story.oks(),
            self.story.past(),
            session,
        )
    }
}

impl Link for MemoryLink {
    ghost state = { link_state };

    fn dial(&mut self, name: &str) -> Result<(), LinkFault>
        requires { (link_world self.old).linked ≡ false }

        // The link after it.
        ensures adds { OnOk result (self.new
            ≡ with_added (with_one_call self.old) (dial_events (link_world self.old)
            (opening_last self.old.story self.old.last))) }
        ensures adds_nothing { IsErrOf result fault.NoPort → self.new ≡ with_one_call self.old }
        ensures fails { is_listed self.old.fail_at (one_more self.old.calls) ≡ true
            → lists_name self.old.names name.now ≡ true
            → (result ≡ Err fault.Failed) × (self.new ≡ after_fault (with_one_call self.old)) }

        // What every link says.
        ensures dials { Dials (link_state self.old) name.now result (link_state self.new) }
    {
        let fails = self.begin();
        if !self.lists(name) {
            return Err(LinkFault::NoPort);
        }
        if fails {
            return Err(self.fail());
        }
        match self.make_link() {
            Ok(()) => Ok(()),
            Err(AllocError) => Err(self.fail()),
        }
    }

    fn send(&mut self, line: &Line) -> Result<(), LinkFault>
        requires open { (link_world self.old).linked ≡ true }
        requires short { length line.now.items ≤ MOST_LINE_BYTES }

        // The link after it.
        ensures adds { OnOk result (self.new
            ≡ with_added (with_one_call self.old) (send_events (link_world self.old) line.now
            (next_fate self.old.story))) }
        ensures adds_closed { OnErr result (self.new ≡ after_fault (with_one_call self.old)) }
        ensures fails { is_listed self.old.fail_at (one_more self.old.calls) ≡ true
            → result ≡ Err fault.Failed }

        // What every link says.
        ensures sends { Sends (link_state self.old) line.now.items result (link_state self.new) }
    {
        let fails = self.begin();
        if fails {
            return Err(self.fail());
        }
        match self.transmit(line) {
            Ok(()) => Ok(()),
            Err(AllocError) => Err(self.fail()),
        }
    }

    fn recv(&mut self, into: &mut ReplyLine) -> Result<Heard, LinkFault>
        requires { (link_world self.old).linked ≡ true }

        // The link after it.
        ensures adds { IfOk result (λ got.
            LinkReceived (is_listed self.old.restart_at (one_more self.old.recvs))
            (is_due self.old.slow (one_more self.old.recvs)) into.new.items got
            (with_one_recv (with_one_call self.old)) self.new) }
        ensures fails { is_listed self.old.fail_at (one_more self.old.calls) ≡ true
            → (result ≡ Err fault.Failed)
            × (self.new ≡ after_fault (with_one_recv (with_one_call self.old))) }

        // What every link says.
        ensures hears { Hears (link_state self.old) result into.new.items (link_state self.new) }
    {
        let fails = self.begin();
        let due = self.begin_recv();
        if fails {
            return Err(self.fail());
        }
        let restarts = self.restarts();
        match self.take_reply(restarts, due, into) {
            Ok(got) => Ok(got),
            Err(AllocError) => Err(self.fail()),
        }
    }

    fn hang_up(&mut self)
        ensures adds { self.new ≡ with_added self.old (closing_events (link_world self.old)) }
        ensures hangs_up { HangsUp (link_state self.old) (link_state self.new) }
    {
        self.story.close();
    }
}
