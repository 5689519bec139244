//! A world together with the events that led to it.
ghost use Rattle.std.specs.Prelude.{◌≡◌, ◌<◌, ◌≤◌, ◌+◌, ◌-◌, ◌^◌, ◌%◌, ◌∷◌, ◌++◌, [], true, false, if◌then◌else◌, length, min, slice_index, slice_index_or, slice_set, vec_len, vec_capacity, OnOk, OnErr, IfOk};
ghost use Rattle.std.specs.List.{list_any};
ghost use Rattle.octo_outside.specs.Memory.{is_listed};
ghost use Rattle.printer_model.specs.World.{is_opened, is_send, apply, world_from, takes_memory, IsFrontReply};
ghost use Rattle.printer_link.specs.Link.{arrivals, due_run, printer_events, dial_events};
ghost use Rattle.printer_link.specs.Memory.{story_world, with_events, sends, next_fate, harm_events, send_events, restart_events, before_reply, opening_last, queue_runs, closing_events, lost_among, RunsOnly, FreeOnly, PassedReply};
ghost use Rattle.printer_model.specs.declared.event.WorldEvent.TheVariants as event;
ghost use Rattle.printer_link.specs.declared.link.Heard.TheVariants as heard;
ghost use Rattle.printer_link.specs.declared.schedule.Fate.TheVariants.{Whole};

use crate::link::Heard;
use crate::schedule::{Fate, FateList};
use byte_text::{Line, ReplyLine, bounded_text};
use printer_model::{Oks, World, WorldEvent, corrupted};
use std::alloc::{AllocError, Global};
use std::marker::Model;

// A world, the events that led to it, and the fates of the lines that are sent. While a link is made, one more event fits without memory.
#[derive(Drop)]
pub(crate) struct Story {
    slots: u8,
    oks: Oks,
    fates: FateList,
    past: Vec<WorldEvent>,
    world: World,
    // The place of the next line's fate, at most the end.
    next: usize,
}

impl Model for Story {
    ghost use Rattle.std.specs.Prelude.{◌≡◌, ◌<◌, true, vec_len, vec_capacity};
    ghost use Rattle.printer_link.specs.Memory.{StoryData, IsKept};

    ghost Value = { StoryData };

    ghost view = { λ s. record {
      slots = s.slots;
      oks = s.oks;
      fates = s.fates;
      past = s.past.items;
    } };

    ghost invariant = { λ s. IsKept s.slots s.oks s.fates s.past.items s.world s.next
        × (s.world.linked ≡ true → vec_len s.past < vec_capacity s.past) };
}

impl Story {
    // A story with no event.
    pub(crate) fn new(alloc: Global, slots: u8, oks: Oks, fates: FateList) -> Self
        requires some { 1 ≤ slots }
        requires few { slots ≤ 16 }
        ensures { result ≡ record {
          slots = slots;
          oks = oks;
          fates = fates;
          past = [];
        } }
    {
        Story {
            slots,
            oks,
            fates,
            past: Vec::new(alloc),
            world: World::new(alloc, slots, oks),
            next: 0,
        }
    }

    // The world as it is now.
    pub(crate) fn world(&self) -> &World
        ensures { result.now ≡ story_world self.now }
    {
        &self.world
    }

    // How many lines the printer keeps waiting.
    pub(crate) fn slots(&self) -> u8
        ensures value { result ≡ self.now.slots }
        ensures some { 1 ≤ result }
        ensures few { result ≤ 16 }
    {
        self.slots
    }

    // The printer's acknowledgements.
    pub(crate) fn oks(&self) -> Oks
        ensures { result ≡ self.now.oks }
    {
        self.oks
    }

    // The events so far.
    pub(crate) fn past(&self) -> &[WorldEvent]
        ensures { result.now ≡ self.now.past }
    {
        self.past.as_slice()
    }

    // Adds an event that isn't a `Send`.
    fn add(&mut self, event: WorldEvent) -> Result<(), AllocError>
        requires { is_send event ≡ false }
        ensures ok { OnOk result (self.new ≡ with_events self.old (event ∷ [])) }
        ensures err { OnErr result (self.new ≡ self.old) }
    {
        self.past.reserve(2)?;
        let _ = self.world.apply(&event)?;
        self.past.push_reserved(event);
        Ok(())
    }

    // Closes the link if one is made; takes no memory.
    pub(crate) fn close(&mut self)
        ensures { self.new ≡ with_events self.old (closing_events (story_world self.old)) }
    {
        if self.world.close() {
            self.past.push_reserved(WorldEvent::Closed);
        }
    }

    // The printer runs all that waits; without memory it ran a part of it.
    pub(crate) fn run_all(&mut self) -> Result<(), AllocError>
        ensures ok { OnOk result (self.new
            ≡ with_events self.old (queue_runs (story_world self.old))) }
        ensures err { OnErr result (RunsOnly self.old self.new) }
    {
        let waiting = self.world().waiting();
        for ran in 0..waiting {
            self.add(WorldEvent::Run)?;
        }
        Ok(())
    }

    // The printer runs all that waits, and then a link is made: at the first with the given last number, later with the printer's.
    pub(crate) fn dial(&mut self, first: u32) -> Result<(), AllocError>
        ensures ok { OnOk result (self.new
            ≡ with_events self.old (dial_events (story_world self.old)
            (opening_last self.old first))) }
        ensures err { OnErr result (RunsOnly self.old self.new) }
    {
        let opened = has_opened(self.past());
        self.run_all()?;
        self.open(later_or_first(opened, self.world().last(), first))
    }

    // A link is made.
    fn open(&mut self, last: u32) -> Result<(), AllocError>
        ensures ok { OnOk result (self.new ≡ with_events self.old (event.Opened last ∷ [])) }
        ensures err { OnErr result (self.new ≡ self.old) }
    {
        self.add(WorldEvent::Opened { last })
    }

    // All that is on the wire arrives, until the printer is full; without memory a part of it.
    fn arrive_all(&mut self) -> Result<(), AllocError>
        ensures ok { OnOk result (self.new
            ≡ with_events self.old (arrivals (story_world self.old) (story_world self.old).up)) }
        ensures err { OnErr result (FreeOnly self.old self.new) }
    {
        let coming = self.world().coming();
        for arrived in 0..coming {
            if self.world().is_full() {
                return Ok(());
            }
            self.add(WorldEvent::Arrive)?;
        }
        Ok(())
    }

    // The printer runs a line if that is due and one waits.
    fn run_due(&mut self, due: bool) -> Result<(), AllocError>
        ensures ok { OnOk result (self.new
            ≡ with_events self.old (due_run due (story_world self.old))) }
        ensures err { OnErr result (self.new ≡ self.old) }
    {
        if !due || self.world().waiting() == 0 {
            return Ok(());
        }
        self.add(WorldEvent::Run)
    }

    // The printer restarts if it is to.
    fn restart_due(&mut self, restarts: bool) -> Result<(), AllocError>
        ensures ok { OnOk result (self.new ≡ with_events self.old (restart_events restarts)) }
        ensures err { OnErr result (self.new ≡ self.old) }
    {
        if !restarts {
            return Ok(());
        }
        self.add(WorldEvent::Restart)
    }

    // What happens before a reply is received; without memory a part of it.
    pub(crate) fn before_reply(&mut self, restarts: bool, due: bool) -> Result<(), AllocError>
        ensures ok { OnOk result (self.new
            ≡ with_events self.old (before_reply restarts due (story_world self.old))) }
        ensures err { OnErr result (FreeOnly self.old self.new) }
    {
        self.restart_due(restarts)?;
        self.let_print(due)
    }

    // The listed ones of the replies from a place on are lost; the first of them has this number. Without memory a part of it.
    pub(crate) fn lose_replies(
        &mut self,
        lost: &[u64],
        first: u64,
        from: usize,
    ) -> Result<(), AllocError>
        ensures ok { OnOk result (self.new
            ≡ with_events self.old (lost_among lost.now first from
            (length (story_world self.old).down - from))) }
        ensures err { OnErr result (FreeOnly self.old self.new) }
    {
        let count = self.world().replies().saturating_sub(from);
        let mut number = first;
        let mut place = from;
        for seen in 0..count {
            place = self.pass_reply(lost, number, place)?;
            number = number.saturating_add(1);
        }
        Ok(())
    }

    // The reply at a place of the wire is lost if its number is listed; the place of the next one.
    fn pass_reply(&mut self, lost: &[u64], number: u64, at: usize) -> Result<usize, AllocError>
        requires { at < 2 ^ 64 - 1 }
        ensures ok { IfOk result (λ next.
            PassedReply (is_listed lost.now number) at next self.old self.new) }
        ensures err { OnErr result (self.new ≡ self.old) }
    {
        if lost.contains(&number) {
            self.lose_reply(at)?;
            Ok(at)
        } else {
            Ok(at + 1)
        }
    }

    // The reply at a place of the wire is lost.
    fn lose_reply(&mut self, at: usize) -> Result<(), AllocError>
        ensures ok { OnOk result (self.new
            ≡ with_events self.old (event.LoseReply at ∷ [])) }
        ensures err { OnErr result (self.new ≡ self.old) }
    {
        let Ok(at) = u32::try_from(at) else {
            return Err(AllocError);
        };
        self.add(WorldEvent::LoseReply { at })
    }

    // What arrives and what the printer runs at a call of `recv`; without memory a part of it.
    fn let_print(&mut self, due: bool) -> Result<(), AllocError>
        ensures ok { OnOk result (self.new
            ≡ with_events self.old (printer_events due (story_world self.old))) }
        ensures err { OnErr result (FreeOnly self.old self.new) }
    {
        self.arrive_all()?;
        self.run_due(due)
    }

    // Takes the front of the wire from the printer, if there is one.
    pub(crate) fn receive(&mut self, into: &mut ReplyLine) -> Result<Heard, AllocError>
        ensures line { IfOk result (λ got. got ≡ heard.Line
            → (self.new ≡ with_events self.old (event.Recv ∷ []))
            × IsFrontReply into.new.items (story_world self.old).down) }
        ensures nothing { IfOk result (λ got. got ≡ heard.Nothing
            → (self.new ≡ self.old) × ((story_world self.old).down ≡ [])) }
        ensures err { OnErr result (self.new ≡ self.old) }
    {
        match self.world().front_reply() {
            None => Ok(Heard::Nothing),
            Some(reply) => {
                self.add(WorldEvent::Recv)?;
                *into = reply;
                Ok(Heard::Line)
            }
        }
    }

    // Sends a line, which then meets the next fate; without memory nothing is sent.
    pub(crate) fn send(&mut self, line: &Line) -> Result<(), AllocError>
        ensures ok { OnOk result (self.new
            ≡ with_events self.old (send_events (story_world self.old) line.now
            (next_fate self.old))) }
        ensures err { OnErr result (self.new ≡ self.old) }
    {
        self.past.reserve(3)?;
        let Ok(place) = u32::try_from(self.world.coming()) else {
            return Err(AllocError);
        };
        let fate = fate_at(self.fates.as_slice(), self.next);
        let sent = WorldEvent::Send(copy_of(line));
        let _ = self.world.apply(&sent)?;
        self.past.push_reserved(sent);
        harm(&mut self.world, &mut self.past, fate, place, line);
        self.next = self.next.saturating_add(1).min(self.fates.as_slice().len());
        Ok(())
    }
}

// Whether a link was made in a recorded history.
fn has_opened(past: &[WorldEvent]) -> bool
    ensures { result ≡ list_any is_opened past.now }
{
    past.iter().any(|event| event.is_opened())
}

// The number of a later link, or of the first.
fn later_or_first(opened: bool, later: u32, first: u32) -> u32
    ensures { result ≡ (if opened then later else first) }
{
    if opened { later } else { first }
}

// The fate at a place, whole after the last.
fn fate_at(fates: &[Fate], place: usize) -> Fate
    ensures { result ≡ slice_index_or fates.now place Whole }
{
    match fates.get(place) {
        Some(fate) => *fate,
        None => Fate::Whole,
    }
}

// A copy of a line.
fn copy_of(line: &Line) -> Line
    ensures { result ≡ line.now }
{
    bounded_text(line.as_slice())
}

// Adds what becomes of the line at a place, which takes no memory if there is room for an event.
fn harm(world: &mut World, past: &mut Vec<WorldEvent>, fate: Fate, at: u32, line: &Line)
    requires { vec_len past.old < vec_capacity past.old }
    ensures world { world.new ≡ world_from world.old (harm_events fate at line.now) }
    ensures past { past.new.items ≡ past.old.items ++ harm_events fate at line.now }
    ensures room { vec_capacity past.new ≡ vec_capacity past.old }
{
    match fate {
        Fate::Whole => {}
        Fate::Lost => note(world, past, WorldEvent::Lose { at }),
        Fate::Garbled => note(
            world,
            past,
            WorldEvent::Garble {
                at,
                line: corrupted(line),
            },
        ),
    }
}

// Adds an event that takes no memory, to a history with room for one more.
fn note(world: &mut World, past: &mut Vec<WorldEvent>, event: WorldEvent)
    requires room { vec_len past.old < vec_capacity past.old }
    requires small { takes_memory event ≡ false }
    ensures world { world.new ≡ apply world.old event }
    ensures past { past.new.items ≡ past.old.items ++ event ∷ [] }
    ensures room { vec_capacity past.new ≡ vec_capacity past.old }
{
    match world.apply(&event) {
        Ok(_) => {}
        Err(_) => unreachable!(),
    }
    past.push_reserved(event);
}
