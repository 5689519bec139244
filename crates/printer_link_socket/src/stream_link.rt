//! Lines to a printer and replies from it, over any stream.
ghost use Rattle.std.specs.Prelude.{◌≡◌, ◌+◌, ◌-◌, ◌<◌, ◌≤◌, ◌≢◌, [], ◌++◌, length, take, drop, true, false, is_some, unwrap_or, None, Some, IfSome, IsNone};
ghost use Rattle.std.specs.List.{list_any, before_first, after_first};
ghost use Rattle.printer_link_socket.specs.Lines.{cut, ends_line};
ghost use Rattle.printer_link_socket.specs.declared.unsent.TheConstants.{ROOM};
ghost use Rattle.printer_link_socket.specs.declared.stream_link.TheConstants.{PATIENCE};
ghost use Rattle.printer_link_socket.specs.Sent.{Fits, Follows, HasRoom, Joins, TookFirst, Wrote};
ghost use Rattle.printer_link_socket.specs.Stuck.{stuck_after, stuck_before};
ghost use Rattle.printer_link_socket.specs.Heard.{Came, HeardLater};
ghost use Rattle.printer_link_socket.specs.Waiting.{Starts, no_lines};
ghost use Rattle.printer_link_socket.specs.declared.stream_link.Skipped.TheVariants as skipped;
ghost use Rattle.printer_link.specs.declared.link.Heard.TheVariants as heard;

use crate::dial::WriteNow;
use crate::lines::Lines;
use crate::poll::may_read;
use crate::unsent::Unsent;
use byte_text::{Line, MOST_LINE_BYTES, ReplyLine};
use octo_outside_bell::Ear;
use printer_link::Heard;
use printer_link_cause::Cause;
use std::io::Read;
use std::os::fd::AsRawFd;

// For how many milliseconds a stream may take nothing of what is unsent.
const PATIENCE: u64 = 16_000;

// How often the last lines are offered to a stream. Each time it may wait for up to 20 milliseconds.
const LAST_WRITES: u32 = 4;

/// What was skipped while the printer may start.
#[derive(Clone, Copy)]
pub(crate) enum Skipped {
    /// The printer's line `start`.
    Start,
    /// Another line, or bytes of a line that hasn't ended.
    Speech,
    /// Nothing has come.
    Nothing,
}

/// A stream to a printer, the lines that wait to be written, the bytes that were read, and an ear for a bell that ends its waits.
#[derive(Drop)]
pub(crate) struct StreamLink<S: Drop> {
    pub(crate) stream: Option<S>,
    pub(crate) unsent: Unsent,
    pub(crate) lines: Lines,
    // Why the last call that failed did.
    pub(crate) cause: Option<Cause>,
    ear: Ear,
    // Whether a read waits for input by itself, and no ring is to end that wait.
    reads_wait: bool,
    // Since when the stream takes nothing of what is unsent, in milliseconds; `None` if all was written that could be.
    stuck: Option<u64>,
}

impl<S: Drop> StreamLink<S> {
    /// No stream yet.
    pub(crate) fn closed(ear: Ear) -> Self {
        StreamLink {
            stream: None,
            unsent: Unsent::new(),
            lines: Lines::new(),
            cause: None,
            ear,
            reads_wait: false,
            stuck: None,
        }
    }

    /// Goes on with a stream of which nothing was read or written. A read of it may wait for input by itself, for a bounded time.
    pub(crate) fn begin(&mut self, stream: S, reads_wait: bool)
        ensures unsent { self.new.unsent ≡ [] }
        ensures lines { self.new.lines ≡ no_lines }
        ensures stuck { self.new.stuck ≡ None }
        ensures cause { self.new.cause ≡ self.old.cause }
    {
        self.unsent = Unsent::new();
        self.go_on(stream, reads_wait);
    }

    /// The same, and what is unsent waits.
    pub(crate) fn go_on(&mut self, stream: S, reads_wait: bool)
        ensures unsent { self.new.unsent ≡ self.old.unsent }
        ensures lines { self.new.lines ≡ no_lines }
        ensures stuck { self.new.stuck ≡ None }
        ensures cause { self.new.cause ≡ self.old.cause }
    {
        self.reads_wait = reads_wait && self.ear.is_deaf();
        self.stream = Some(stream);
        self.lines = Lines::new();
        self.stuck = None;
    }

    /// Forgets what was read.
    pub(crate) fn forget_lines(&mut self)
        ensures lines { self.new.lines ≡ no_lines }
        ensures unsent { self.new.unsent ≡ self.old.unsent }
        ensures stream { self.new.stream ≡ self.old.stream }
        ensures stuck { self.new.stuck ≡ self.old.stuck }
        ensures cause { self.new.cause ≡ self.old.cause }
    {
        self.lines = Lines::new();
    }
}

impl<S: WriteNow + Drop> StreamLink<S> {
    // Writes as much of what is unsent as the stream takes now, and returns how many bytes that is. `None` if that fails; it keeps why, and
    // drops the stream.
    fn write_some(&mut self) -> Option<usize>
        ensures written { IfSome result (λ n. Wrote S.contents
            self.old.stream self.new.stream (take n self.old.unsent)) }
        ensures fits { IfSome result (λ n. Fits S.room self.old.stream n self.old.unsent) }
        ensures left { IfSome result (λ n. self.new.unsent ≡ drop n self.old.unsent) }
        ensures sure { HasRoom S.room self.old.stream self.old.unsent → is_some result ≡ true }
        ensures kept { IsNone result → self.new.unsent ≡ self.old.unsent }
        ensures stuck { IfSome result (λ n. self.new.stuck ≡ stuck_before n self.old.stuck) }
        ensures lines { self.new.lines ≡ self.old.lines }
        ensures cause { IsNone result → is_some self.new.cause ≡ true }
        ensures other { IsNone result → self.new.cause ≢ Some Cause.ReadsNothing }
        ensures same { is_some result ≡ true → self.new.cause ≡ self.old.cause }
    {
        let Some(mut stream) = self.stream.take() else {
            self.cause = Some(Cause::Closed);
            return None;
        };
        match self.unsent.write(&mut stream) {
            Ok(n) => {
                self.stream = Some(stream);
                if n > 0 {
                    self.stuck = None;
                }
                Some(n)
            }
            Err(cause) => {
                self.cause = Some(cause);
                None
            }
        }
    }

    // Notes what is left at this moment. `false` if the stream has taken nothing for 16 seconds, and it keeps that as the cause.
    fn note_left(&mut self, now: u64) -> bool
        ensures stuck { result ≡ true
            → self.new.stuck ≡ stuck_after self.old.unsent self.old.stuck now }
        ensures patient { result ≡ true
            → IfSome self.new.stuck (λ since. now - since < PATIENCE) }
        ensures limit { result ≡ false → PATIENCE ≤ now - unwrap_or self.old.stuck now }
        ensures stream { self.new.stream ≡ self.old.stream }
        ensures unsent { self.new.unsent ≡ self.old.unsent }
        ensures lines { self.new.lines ≡ self.old.lines }
        ensures cause { result ≡ false → self.new.cause ≡ Some Cause.ReadsNothing }
        ensures same { result ≡ true → self.new.cause ≡ self.old.cause }
    {
        if self.unsent.is_empty() {
            self.stuck = None;
            return true;
        }
        let since = self.stuck.unwrap_or(now);
        if PATIENCE <= now.saturating_sub(since) {
            self.cause = Some(Cause::ReadsNothing);
            return false;
        }
        self.stuck = Some(since);
        true
    }

    // Writes as much of what is unsent as the stream takes at this moment, and returns how many bytes that is. `None` if that fails, or if the
    // stream has taken nothing for 16 seconds; it keeps which.
    fn write_out(&mut self, now: u64) -> Option<usize>
        ensures written { IfSome result (λ n. Wrote S.contents
            self.old.stream self.new.stream (take n self.old.unsent)) }
        ensures fits { IfSome result (λ n. Fits S.room self.old.stream n self.old.unsent) }
        ensures left { IfSome result (λ n. self.new.unsent ≡ drop n self.old.unsent) }
        ensures stuck { IfSome result (λ n. self.new.stuck
            ≡ stuck_after self.new.unsent (stuck_before n self.old.stuck) now) }
        ensures patient { is_some result ≡ true
            → IfSome self.new.stuck (λ since. now - since < PATIENCE) }
        ensures limit { IsNone result → self.new.cause ≡ Some Cause.ReadsNothing
            → PATIENCE ≤ now - unwrap_or self.old.stuck now }
        ensures lines { self.new.lines ≡ self.old.lines }
        ensures cause { IsNone result → is_some self.new.cause ≡ true }
        ensures same { is_some result ≡ true → self.new.cause ≡ self.old.cause }
    {
        let Some(count) = self.write_some() else {
            return None;
        };
        if self.note_left(now) {
            return Some(count);
        }
        None
    }

    /// Writes what is unsent before the stream is closed, as far as the stream takes it within 80 milliseconds.
    pub(crate) fn write_last(&mut self) {
        for _ in 0..LAST_WRITES {
            if self.unsent.is_empty() || self.write_some().is_none() {
                return;
            }
        }
    }

    // Writes what the stream takes now, and adds a line if there is room then. Otherwise returns `false` and keeps why.
    fn write_and_add(&mut self, line: &Line) -> bool
        requires { length line.now.items ≤ MOST_LINE_BYTES }
        ensures roomy { HasRoom S.room self.old.stream self.old.unsent → result ≡ true }
        ensures joined { result ≡ true → Follows S.contents S.room line.now.items
            self.old.unsent self.new.unsent self.old.stream self.new.stream }
        ensures lines { self.new.lines ≡ self.old.lines }
        ensures cause { result ≡ false → is_some self.new.cause ≡ true }
        ensures same { result ≡ true → self.new.cause ≡ self.old.cause }
    {
        let Some(_) = self.write_some() else {
            return false;
        };
        if self.unsent.has_room(line) {
            self.unsent.add(line);
            return true;
        }
        self.cause = Some(Cause::ReadsNothing);
        false
    }

    /// Adds a line to what is unsent. If room is missing, writes first what the stream takes now, unless it is held back. Returns `false` if
    /// that fails, or if room is still missing, and keeps why.
    pub(crate) fn gather(&mut self, line: &Line, held_back: bool) -> bool
        requires { length line.now.items ≤ MOST_LINE_BYTES }
        ensures room { length self.old.unsent + length line.now.items + 1 ≤ ROOM → result ≡ true }
        ensures roomy { held_back ≡ false → HasRoom S.room self.old.stream self.old.unsent
            → result ≡ true }
        ensures joined { result ≡ true → Joins S.contents S.room line.now.items
            self.old.unsent self.new.unsent self.old.stream self.new.stream }
        ensures held { held_back ≡ true → self.new.stream ≡ self.old.stream }
        ensures lines { self.new.lines ≡ self.old.lines }
        ensures cause { result ≡ false → is_some self.new.cause ≡ true }
        ensures same { result ≡ true → self.new.cause ≡ self.old.cause }
    {
        if self.unsent.has_room(line) {
            self.unsent.add(line);
            return true;
        }
        if held_back {
            self.cause = Some(Cause::ReadsNothing);
            return false;
        }
        self.write_and_add(line)
    }
}

impl<S: Read + AsRawFd + Drop> StreamLink<S> {
    /// Reads what comes within a few milliseconds; a ring ends the wait. Returns `false` if the stream failed or the peer has closed, and
    /// keeps which.
    #[tactic(auto, using(crate::proofs::Heard::nothing_came, crate::proofs::Heard::no_bytes_came))]
    pub(crate) fn read_in(&mut self) -> bool
        requires { self.old.lines.waiting ≡ [] }
        ensures begun { self.new.lines.begun ≡ self.old.lines.begun }
        ensures came { result ≡ true → Came S.remaining
            self.old.stream self.new.stream self.new.lines.waiting }
        ensures peer { result ≡ true → self.new.lines.end ≡ None }
        ensures unsent { self.new.unsent ≡ self.old.unsent }
        ensures cause { result ≡ false → is_some self.new.cause ≡ true }
        ensures end { result ≡ false → is_some self.old.stream ≡ true
            → self.new.cause ≡ self.new.lines.end }
        ensures same { result ≡ true → self.new.cause ≡ self.old.cause }
    {
        let Some(mut stream) = self.stream.take() else {
            self.cause = Some(Cause::Closed);
            return false;
        };
        if self.reads_wait || may_read(&stream, &self.ear, self.stuck.is_some()) {
            let _ = self.lines.fill(&mut stream);
        }
        self.stream = Some(stream);
        match self.lines.end() {
            None => true,
            Some(cause) => {
                self.cause = Some(cause);
                false
            }
        }
    }

    /// Drops the next line, or reads more if none has ended. `None` if the link failed, and it keeps why.
    pub(crate) fn skip(&mut self) -> Option<Skipped>
        ensures start { IfSome result (λ s. s ≡ skipped.Start
            → Starts self.old.lines self.new.lines) }
        ensures unsent { self.new.unsent ≡ self.old.unsent }
        ensures cause { IsNone result → is_some self.new.cause ≡ true }
        ensures same { is_some result ≡ true → self.new.cause ≡ self.old.cause }
    {
        let mut line = ReplyLine::new();
        if self.lines.take(&mut line) {
            if line.as_slice().starts_with(b"start") {
                return Some(Skipped::Start);
            }
            return Some(Skipped::Speech);
        }
        if !self.read_in() {
            return None;
        }
        if self.lines.has_more() {
            return Some(Skipped::Speech);
        }
        Some(Skipped::Nothing)
    }
}

impl<S: Read + WriteNow + AsRawFd + Drop> StreamLink<S> {
    /// Takes the next reply. If none has ended, writes as much of what is unsent as the stream takes at this moment, and waits for more. `None`
    /// if the link failed, and it keeps why.
    pub(crate) fn hear(&mut self, into: &mut ReplyLine, now: u64) -> Option<Heard>
        ensures at_once { list_any ends_line self.old.lines.waiting ≡ true
            → result ≡ Some heard.Line }
        ensures line { list_any ends_line self.old.lines.waiting ≡ true
            → into.new.items
            ≡ cut (self.old.lines.begun ++ before_first ends_line self.old.lines.waiting) }
        ensures after { list_any ends_line self.old.lines.waiting ≡ true
            → self.new.lines ≡ record self.old.lines {
              begun = [];
              waiting = after_first ends_line self.old.lines.waiting;
            } }
        ensures still { list_any ends_line self.old.lines.waiting ≡ true
            → (self.new.unsent ≡ self.old.unsent) × (self.new.stream ≡ self.old.stream) }

        // If no reply waited, the stream was offered what is unsent before more was read: what it didn't take is left.
        ensures took { list_any ends_line self.old.lines.waiting ≡ false → is_some result ≡ true
            → TookFirst S.contents S.room self.old.stream self.old.unsent self.new.unsent }
        ensures emptied { list_any ends_line self.old.lines.waiting ≡ false → is_some result ≡ true
            → HasRoom S.room self.old.stream self.old.unsent → self.new.unsent ≡ [] }

        // And the line, if one has ended then, is made of what had been read and what came.
        ensures later { list_any ends_line self.old.lines.waiting ≡ false → IfSome result (λ got.
            HeardLater S.contents S.remaining S.room self.old.stream self.new.stream
            self.old.unsent self.new.unsent self.old.lines got into.new.items
            self.new.lines) }

        // And its last reading didn't find the end of the stream, as when the peer has closed.
        ensures peer { list_any ends_line self.old.lines.waiting ≡ false → is_some result ≡ true
            → self.new.lines.end ≡ None }

        ensures cause { IsNone result → is_some self.new.cause ≡ true }
        ensures same { is_some result ≡ true → self.new.cause ≡ self.old.cause }
    {
        if self.lines.take(into) {
            return Some(Heard::Line);
        }
        let Some(_) = self.write_out(now) else {
            return None;
        };
        if !self.read_in() {
            return None;
        }
        if self.lines.take(into) {
            return Some(Heard::Line);
        }
        Some(Heard::Nothing)
    }
}
