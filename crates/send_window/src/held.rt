//! The lines that were issued and aren't acknowledged.
ghost use Rattle.std.specs.Prelude.{◌≡◌, ◌<◌, ◌≤◌, [], ◌∷◌, ◌++◌, length, drop, slice_index_or, IfOk, false};
ghost use Rattle.byte_text.specs.Marks.{has_byte};
ghost use Rattle.byte_text.specs.declared.texts.TheConstants.{MOST_LINE_BYTES};
ghost use Rattle.marlin_frame.specs.Frame.{frame_of};
ghost use Rattle.marlin_frame.specs.declared.written.TheConstants.{LAST_NUMBER};
ghost use Rattle.send_window.specs.Sending.{IsFramable};

use byte_text::{Line, Text, bounded_text};
use circular_buffer::HeapCircularBuffer;
use marlin_frame::frame;
use std::alloc::{AllocError, Global};
use std::marker::Model;

// The most lines that may be held: as many as may ever be unacknowledged, and one that stops the printer.
pub(crate) const MOST_HELD: usize = 17;

// The text of a line.
#[derive(Drop)]
struct HeldText {
    text: Text,
}

impl Model for HeldText {
    ghost use Rattle.std.specs.Prelude.{ℕ, List};
    ghost use Rattle.send_window.specs.Sending.{IsFramable};

    ghost Value = { List ℕ };

    ghost view = { λ held. held.text.items };

    ghost invariant = { λ held. IsFramable held.text.items };
}

impl HeldText {
    fn new(bytes: &[u8]) -> HeldText
        requires { IsFramable bytes.now }
        ensures { result ≡ bytes.now }
    {
        HeldText {
            text: bounded_text(bytes),
        }
    }

    fn frame(&self, number: u32, into: &mut Line)
        requires { number ≤ LAST_NUMBER }
        ensures frame { into.new.items ≡ frame_of number self.now }
        ensures short { length into.new.items ≤ MOST_LINE_BYTES }
        ensures one_line { has_byte 10 into.new.items ≡ false }
    {
        frame(number, &self.text, into);
    }
}

// At most 17 lines, in the order of their numbers.
#[derive(Drop)]
pub(crate) struct Held {
    lines: HeapCircularBuffer<HeldText>,
}

impl Model for Held {
    ghost use Rattle.std.specs.Prelude.{◌≡◌, ◌≤◌, ℕ, List, length};

    ghost Value = { List (List ℕ) };

    ghost view = { λ held. held.lines.items };

    ghost invariant = { λ held. (held.lines.capacity ≡ 17) × (length held.lines.items ≤ 17) };
}

impl Held {
    // No lines.
    pub(crate) fn new(alloc: Global) -> Result<Held, AllocError>
        ensures { IfOk result (λ held. held ≡ []) }
    {
        let lines = HeapCircularBuffer::with_capacity(alloc, MOST_HELD)?;
        Ok(Held { lines })
    }

    // Drops every line.
    pub(crate) fn clear(&mut self)
        ensures { self.new ≡ [] }
    {
        self.lines.clear();
    }

    // Adds a line after the others.
    pub(crate) fn push(&mut self, text: &[u8])
        requires room { length self.old < 17 }
        requires framable { IsFramable text.now }
        ensures { self.new ≡ self.old ++ text.now ∷ [] }
    {
        self.lines.push_back(HeldText::new(text));
    }

    // Drops the first line.
    pub(crate) fn drop_front(&mut self)
        ensures { self.new ≡ drop 1 self.old }
    {
        self.lines.pop_front();
    }

    // Drops this number of lines at the front.
    pub(crate) fn drop_first(&mut self, count: usize)
        requires { count ≤ length self.old }
        ensures { self.new ≡ drop count self.old }
    {
        self.lines.truncate_front(self.lines.len() - count);
    }

    // Writes the frame of the line at `index` under this number.
    pub(crate) fn frame_at(&self, index: usize, number: u32, into: &mut Line)
        requires held { index < length self.now }
        requires number { number ≤ LAST_NUMBER }
        ensures frame { into.new.items ≡ frame_of number (slice_index_or self.now index []) }
        ensures short { length into.new.items ≤ MOST_LINE_BYTES }
        ensures one_line { has_byte 10 into.new.items ≡ false }
    {
        match self.lines.get(index) {
            Some(line) => line.frame(number, into),
            None => unreachable!(),
        }
    }
}
