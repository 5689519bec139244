//! What the printer ran in a session, in order.
ghost use Rattle.std.specs.Prelude.{◌≡◌, ◌≤◌, drop, filter, IfOk};
ghost use Rattle.printer_model.specs.World.{is_opened, world_of};
ghost use Rattle.printer_model.specs.Executed.{executed, is_counted, sessions_left_after, till};

use crate::{ExecutedLine, Oks, World, WorldEvent};
use byte_text::bounded_text;
use marlin_frame::HELLO_NUMBER;
use std::alloc::{AllocError, Global};
use std::marker::Model;

/// The lines that the printer ran in a session, without those of the hello's number.
#[derive(Drop)]
pub struct Executed {
    lines: Vec<ExecutedLine>,
}

impl Model for Executed {
    ghost use Rattle.std.specs.Prelude.{List};
    ghost use Rattle.printer_model.specs.Printer.{Logged};

    ghost Value = { List Logged };

    ghost view = { λ e. e.lines.items };
}

impl Executed {
    /// What was run in a session of a recorded history over a printer of 1 to 16 buffer slots; the first session is 1. Fails if out of
    /// memory.
    pub fn of_session(
        alloc: Global,
        slots: u8,
        oks: Oks,
        past: &[WorldEvent],
        session: u32,
    ) -> Result<Self, AllocError>
        requires some { 1 ≤ slots }
        requires few { slots ≤ 16 }
        ensures { IfOk result (λ e. e ≡ executed slots oks past.now session) }
    {
        let before = replay(alloc, slots, oks, past, session.saturating_sub(1))?;
        let whole = replay(alloc, slots, oks, past, session)?;
        counted_lines(alloc, after(whole.log(), before.log().len()))
    }

    /// The lines in the order in which they were run.
    pub fn as_slice(&self) -> &[ExecutedLine]
        ensures { result.now ≡ self.now }
    {
        self.lines.as_slice()
    }
}

// What follows this number of lines.
fn after(lines: &[ExecutedLine], count: usize) -> &[ExecutedLine]
    ensures { result.now ≡ drop count lines.now }
{
    if count <= lines.len() {
        &lines[count..]
    } else {
        &[]
    }
}

// How many sessions are still to come after an event, none if it opens one too many.
fn sessions_left_after(left: u32, event: &WorldEvent) -> Option<u32>
    ensures { result ≡ sessions_left_after left (is_opened event.now) }
{
    if event.is_opened() {
        left.checked_sub(1)
    } else {
        Some(left)
    }
}

// The world at the end of a session, made anew event by event.
fn replay(
    alloc: Global,
    slots: u8,
    oks: Oks,
    past: &[WorldEvent],
    session: u32,
) -> Result<World, AllocError>
    requires some { 1 ≤ slots }
    requires few { slots ≤ 16 }
    ensures { IfOk result (λ w. w ≡ world_of slots oks (till session past.now)) }
{
    let mut world = World::new(alloc, slots, oks);
    let mut left = session;
    for event in past {
        let Some(rest) = sessions_left_after(left, event) else {
            return Ok(world);
        };
        left = rest;
        let _ = world.apply(event)?;
    }
    Ok(world)
}

// Whether a line has another number than the hello.
fn is_counted(line: &ExecutedLine) -> bool
    ensures { result ≡ is_counted line.now }
{
    line.number != Some(HELLO_NUMBER)
}

// Copies of the lines that have another number than the hello.
fn counted_lines(alloc: Global, lines: &[ExecutedLine]) -> Result<Executed, AllocError>
    ensures { IfOk result (λ e. e ≡ filter is_counted lines.now) }
{
    let mut counted = Vec::new(alloc);
    for line in lines {
        if is_counted(line) {
            counted.push(copy_of(line))?;
        }
    }
    Ok(Executed { lines: counted })
}

// A copy of a line.
fn copy_of(line: &ExecutedLine) -> ExecutedLine
    ensures { result ≡ line.now }
{
    ExecutedLine {
        number: line.number,
        text: bounded_text(line.text.as_slice()),
    }
}
