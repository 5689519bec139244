//! The world between host and printer: two wires, the printer, and what it ran.
ghost use Rattle.std.specs.Prelude.{◌≡◌, ◌≤◌, ◌&&◌, true, false, [], ◌∷◌, ◌++◌, if◌then◌else◌, length, IfOk, OnOk, OnErr, MatchOption};
ghost use Rattle.printer_model.specs.Printer.{is_full};
ghost use Rattle.printer_model.specs.World.{IsFrontReply};
ghost use Rattle.marlin_reply.specs.Kind.{is_chatter};
ghost use Rattle.printer_model.specs.World.{new_world, can_happen, apply, IsStep, takes_memory};

use crate::event::WorldEvent;
use crate::executed::ExecutedLine;
use crate::oks::Oks;
use crate::printer::{Printer, Ran, Taken};
use crate::replies::{error_line, ok_line, resend_line, start_line};
use crate::wire::Wire;
use byte_text::{Line, MOST_LINE_BYTES, ReplyLine, bounded_text};
use marlin_frame::fails;
use marlin_reply::{Reply, read_reply};
use std::alloc::{AllocError, Global};
use std::marker::Model;

/// The world between host and printer. The host is at one end of both wires, the printer at the other.
#[derive(Drop)]
pub struct World {
    linked: bool,
    printer: Printer,
    log: Vec<ExecutedLine>,
    up: Wire<96>,
    down: Wire<256>,
}

impl Model for World {
    ghost use Rattle.printer_model.specs.World.{WorldData};

    ghost Value = { WorldData };

    ghost view = { λ w. record {
      linked = w.linked;
      printer = w.printer;
      log = w.log.items;
      up = w.up;
      down = w.down;
    } };
}

impl World {
    /// A world with a closed link and a printer of 1 to 16 buffer slots that has run nothing.
    pub fn new(alloc: Global, slots: u8, oks: Oks) -> Self
        requires some { 1 ≤ slots }
        requires few { slots ≤ 16 }
        ensures { result ≡ new_world slots oks }
    {
        World {
            linked: false,
            printer: Printer::new(0, slots, oks),
            log: Vec::new(alloc),
            up: Wire::new(alloc),
            down: Wire::new(alloc),
        }
    }

    /// Whether a link is made.
    pub fn is_linked(&self) -> bool
        ensures { result ≡ self.now.linked }
    {
        self.linked
    }

    /// How many lines wait in the printer.
    pub fn waiting(&self) -> usize
        ensures { result ≡ length self.now.printer.queue }
    {
        self.printer.waiting()
    }

    /// Whether the printer takes no line.
    pub fn is_full(&self) -> bool
        ensures { result ≡ is_full self.now.printer }
    {
        self.printer.is_full()
    }

    /// The printer's last line number.
    pub fn last(&self) -> u32
        ensures { result ≡ self.now.printer.last }
    {
        self.printer.last()
    }

    /// How many lines are on the wire to the printer.
    pub fn coming(&self) -> usize
        ensures { result ≡ length self.now.up }
    {
        self.up.len()
    }

    /// How many reply lines are on the wire from the printer.
    pub fn replies(&self) -> usize
        ensures { result ≡ length self.now.down }
    {
        self.down.len()
    }

    /// The line at the front of the wire from the printer.
    pub fn front_reply(&self) -> Option<ReplyLine>
        ensures { MatchOption result (self.now.down ≡ [])
            (λ reply. IsFrontReply reply.items self.now.down) }
    {
        match self.down.front() {
            None => None,
            Some(reply) => Some(bounded_text(reply.as_slice())),
        }
    }

    /// What the printer ran.
    pub fn log(&self) -> &[ExecutedLine]
        ensures { result.now ≡ self.now.log }
    {
        self.log.as_slice()
    }

    /// Lets an event happen; true if it could. One that can't changes nothing, nor does a call that runs out of memory.
    pub fn apply(&mut self, event: &WorldEvent) -> Result<bool, AllocError>
        ensures step { IsStep self.old event.now self.new result }
        ensures no_memory { OnErr result (takes_memory event.now ≡ true) }
    {
        match event {
            WorldEvent::Opened { last } => Ok(self.open(*last)),
            WorldEvent::Send(line) => self.send(line),
            WorldEvent::Arrive => self.arrive(),
            WorldEvent::Lose { at } => Ok(self.lose(*at)),
            WorldEvent::LoseReply { at } => Ok(self.lose_reply(*at)),
            WorldEvent::Garble { at, line } => Ok(self.corrupt(*at, line)),
            WorldEvent::Run => self.run(),
            WorldEvent::Restart => self.restart(),
            WorldEvent::Chatter(reply) => self.chatter(reply),
            WorldEvent::Recv => Ok(self.receive()),
            WorldEvent::Closed => Ok(self.close()),
        }
    }

    // The event Opened.
    fn open(&mut self, last: u32) -> bool
        ensures happened { result ≡ can_happen self.old (WorldEvent.Opened last) }
        ensures after { self.new ≡ apply self.old (WorldEvent.Opened last) }
    {
        if self.linked || self.printer.waiting() > 0 {
            return false;
        }
        self.linked = true;
        self.printer.set_last(last);
        self.up.clear();
        self.down.clear();
        true
    }

    // The event Send.
    fn send(&mut self, line: &Line) -> Result<bool, AllocError>
        ensures { IsStep self.old (WorldEvent.Send line.now) self.new result }
    {
        if !self.linked || line.len() > MOST_LINE_BYTES {
            return Ok(false);
        }
        self.up.push(bounded_text(line.as_slice()))?;
        Ok(true)
    }

    // The event Arrive.
    fn arrive(&mut self) -> Result<bool, AllocError>
        ensures { IsStep self.old WorldEvent.Arrive self.new result }
    {
        let Some(line) = self.up.front() else {
            return Ok(false);
        };
        match self.printer.take(line.as_slice()) {
            Taken::Full => return Ok(false),
            Taken::Accepted => {}
            Taken::Refused { reason, last } => self
                .down
                .push_three(error_line(reason, last), resend_line(last), ok_line())?,
        }
        let _ = self.up.pop();
        Ok(true)
    }

    // The event Lose.
    fn lose(&mut self, at: u32) -> bool
        ensures happened { result ≡ can_happen self.old (WorldEvent.Lose at) }
        ensures after { self.new ≡ apply self.old (WorldEvent.Lose at) }
    {
        if at as usize >= self.up.len() {
            return false;
        }
        self.up.remove(at as usize);
        true
    }

    // The event LoseReply.
    fn lose_reply(&mut self, at: u32) -> bool
        ensures happened { result ≡ can_happen self.old (WorldEvent.LoseReply at) }
        ensures after { self.new ≡ apply self.old (WorldEvent.LoseReply at) }
    {
        if !self.printer.oks().lost || at as usize >= self.down.len() {
            return false;
        }
        self.down.remove(at as usize);
        true
    }

    // The event Garble.
    fn corrupt(&mut self, at: u32, line: &Line) -> bool
        ensures happened { result ≡ can_happen self.old (WorldEvent.Garble at line.now) }
        ensures after { self.new ≡ apply self.old (WorldEvent.Garble at line.now) }
    {
        if at as usize >= self.up.len() || !fails(line.as_slice()) || line.len() > MOST_LINE_BYTES {
            return false;
        }
        self.up.set(at as usize, bounded_text(line.as_slice()));
        true
    }

    // The event Run.
    fn run(&mut self) -> Result<bool, AllocError>
        ensures { IsStep self.old WorldEvent.Run self.new result }
    {
        let Some(
            Ran {
                number,
                text,
                reply,
            },
        ) = self.printer.next_run()
        else {
            return Ok(false);
        };
        self.log.reserve(1)?;
        answer(&mut self.down, self.linked, reply)?;
        self.log.push(ExecutedLine { number, text })?;
        self.printer.drop_front();
        Ok(true)
    }

    // The event Restart.
    fn restart(&mut self) -> Result<bool, AllocError>
        ensures { IsStep self.old WorldEvent.Restart self.new result }
    {
        if !self.linked {
            return Ok(false);
        }
        self.down.push(start_line())?;
        self.printer.restart();
        Ok(true)
    }

    // The event Chatter.
    fn chatter(&mut self, reply: &ReplyLine) -> Result<bool, AllocError>
        ensures { IsStep self.old (WorldEvent.Chatter reply.now) self.new result }
    {
        if !self.linked || !is_chatter(reply.as_slice()) {
            return Ok(false);
        }
        self.down.push(bounded_text(reply.as_slice()))?;
        Ok(true)
    }

    // The event Recv.
    fn receive(&mut self) -> bool
        ensures happened { result ≡ can_happen self.old WorldEvent.Recv }
        ensures after { self.new ≡ apply self.old WorldEvent.Recv }
    {
        self.linked && self.down.pop().is_some()
    }

    /// The event Closed.
    pub fn close(&mut self) -> bool
        ensures happened { result ≡ can_happen self.old WorldEvent.Closed }
        ensures after { self.new ≡ apply self.old WorldEvent.Closed }
    {
        if !self.linked {
            return false;
        }
        self.linked = false;
        self.up.clear();
        self.down.clear();
        true
    }
}

// Puts a reply on the wire from the printer if a link is made.
fn answer(down: &mut Wire<256>, linked: bool, reply: ReplyLine) -> Result<(), AllocError>
    ensures ok { OnOk result (down.new
        ≡ (if linked then down.old ++ reply.items ∷ [] else down.old)) }
    ensures err { OnErr result (down.new ≡ down.old) }
{
    if linked {
        down.push(reply)?;
    }
    Ok(())
}

// Whether a line is another reply: neither Ok, Resend nor Start.
#[tactic(auto, unfolding(marlin_reply::specs::Kind::is_chatter))]
fn is_chatter(line: &[u8]) -> bool
    ensures { result ≡ is_chatter line.now }
{
    match read_reply(line) {
        Reply::Ok { .. } | Reply::Resend { .. } | Reply::Start => false,
        Reply::Busy | Reply::Temps(_) | Reply::Error | Reply::Other => true,
    }
}
