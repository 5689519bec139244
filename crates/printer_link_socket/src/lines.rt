//! Reply lines out of a stream's bytes.
ghost use Rattle.std.specs.Prelude.{◌≡◌, ◌++◌, ◌-◌, ◌<◌, ◌≤◌, ◌⊎◌, ◌↔◌, ℕ, List, [], None, true, false, length, take, drop, IfOk, IfSome, IsNone, OnOk, OnErr, IsTrue, MatchResult, ⊤};
ghost use Rattle.std.specs.IoError.{error_kind, raw_os_error};
ghost use Rattle.std.specs.Io.KnownBytes.{Consumes, Keeps};
ghost use Rattle.std.specs.List.{list_any, position_or_len, before_first, after_first};
ghost use Rattle.printer_link_cause.specs.Causes.{cause_of};
ghost use Rattle.printer_link_socket.specs.Lines.{LinesData, cut, end_at, ends_line};
ghost use Rattle.printer_link_socket.specs.declared.lines.TheConstants.{SIZE};

use byte_text::{ReplyLine, append};
use octo_outside_sockets::may_come_later;
use printer_link_cause::{Cause, cause_of};
use std::io::{ErrorKind, Read};
use std::marker::Model;
use std::{io, mem};

// How many bytes a reading returns at most.
const SIZE: usize = 4096;

/// The bytes of a stream of lines that were read and aren't returned yet. It never grows.
#[derive(Drop)]
pub struct Lines {
    begun: ReplyLine,
    bytes: [u8; SIZE],
    start: usize,
    stop: usize,
    end: Option<Cause>,
}

impl Model for Lines {
    ghost Value = { LinesData };

    ghost view = { λ l. record {
      begun = l.begun.items;
      waiting = take (l.stop - l.start) (drop l.start l.bytes);
      end = l.end;
    } };

    ghost invariant = { λ l. (l.start ≤ l.stop) × (l.stop ≤ SIZE) };
}

// How many bytes are before the first line feed, or in all without one.
fn length_before_end(bytes: &[u8]) -> usize
    ensures { result ≡ position_or_len ends_line bytes.now }
{
    bytes.iter().take_while(|byte| **byte != b'\n').count()
}

// Adds bytes to a line, which is cut.
fn add_cut(line: &mut ReplyLine, bytes: &[u8])
    ensures { line.new.items ≡ cut (line.old.items ++ bytes.now) }
{
    let count = bytes.len().min(line.remaining_capacity());
    append(line, &bytes[..count]);
}

// By what a reading found the end of a stream, if it did: the peer has closed, and no byte came, or the stream has failed.
fn end_of(read: &io::Result<usize>) -> Option<Cause>
    ensures end { MatchResult read.now
        (λ n. result ≡ end_at n)
        (λ error. IsNone result ↔ (error_kind error ≡ ErrorKind.WouldBlock)
        ⊎ (error_kind error ≡ ErrorKind.TimedOut) ⊎ (error_kind error ≡ ErrorKind.Interrupted)) }
    ensures cause { MatchResult read.now (λ _. ⊤)
        (λ error. IfSome result (λ cause. cause ≡ cause_of (raw_os_error error))) }
{
    match read {
        Ok(0) => Some(Cause::Closed),
        Ok(_) => None,
        Err(error) => {
            if may_come_later(error) {
                return None;
            }
            Some(cause_of(error))
        }
    }
}

impl Lines {
    /// Nothing has been read.
    pub fn new() -> Self
        ensures { result ≡ record { begun = []; waiting = []; end = None } }
    {
        Lines {
            begun: ReplyLine::new(),
            bytes: [0; SIZE],
            start: 0,
            stop: 0,
            end: None,
        }
    }

    /// By what the last reading found the end of the stream, if it did.
    pub fn end(&self) -> Option<Cause>
        ensures { result ≡ self.now.end }
    {
        self.end
    }

    /// Whether bytes wait that were read and aren't looked through yet.
    pub fn has_more(&self) -> bool
        ensures { IsTrue result ↔ (0 < length self.now.waiting) }
    {
        !self.waiting().is_empty()
    }

    // The bytes after the line that has begun.
    fn waiting(&self) -> &[u8]
        ensures { result.now ≡ self.now.waiting }
    {
        &self.bytes[self.start..self.stop]
    }

    // Passes over n waiting bytes.
    #[tactic(auto, using(crate::proofs::Cuts::window_after))]
    fn pass(&mut self, n: usize)
        requires { n ≤ length self.old.waiting }
        ensures { self.new ≡ record self.old { waiting = drop n self.old.waiting } }
    {
        self.start += n;
    }

    // Returns the line that has begun; another begins.
    fn take_begun(&mut self) -> ReplyLine
        ensures line { result.items ≡ self.old.begun }
        ensures after { self.new ≡ record self.old { begun = [] } }
    {
        mem::replace(&mut self.begun, ReplyLine::new())
    }

    // Keeps a line as the one that has begun; nothing waits after it.
    fn keep_begun(&mut self, line: ReplyLine)
        ensures { self.new ≡ record self.old { begun = line.items; waiting = [] } }
    {
        self.begun = line;
        self.start = 0;
        self.stop = 0;
    }

    /// Takes the next line without its line feed, cut to 256 bytes. Returns `false` if no line has ended yet.
    #[tactic(auto, using(crate::proofs::Cuts::any_at, crate::proofs::Cuts::any_nowhere))]
    pub fn take(&mut self, into: &mut ReplyLine) -> bool
        ensures found { result ≡ list_any ends_line self.old.waiting }
        ensures line { result ≡ true
            → into.new.items ≡ cut (self.old.begun ++ before_first ends_line self.old.waiting) }
        ensures after { result ≡ true → self.new
            ≡ record self.old { begun = []; waiting = after_first ends_line self.old.waiting } }
        ensures none { result ≡ false → self.new
            ≡ record self.old { begun = cut (self.old.begun ++ self.old.waiting); waiting = [] } }
    {
        let mut line = self.take_begun();
        let waiting = self.waiting();
        let length = length_before_end(waiting);
        let ended = length < waiting.len();
        add_cut(&mut line, &waiting[..length]);
        if ended {
            self.pass(length + 1);
            *into = line;
            return true;
        }
        self.keep_begun(line);
        false
    }

    /// Reads more, if nothing waits. Returns how many bytes came, or the stream's error.
    pub fn fill<S: Read>(&mut self, stream: &mut S) -> io::Result<usize>
        requires { self.old.waiting ≡ [] }
        ensures begun { self.new.begun ≡ self.old.begun }
        ensures ok { IfOk result (λ n. length self.new.waiting ≡ n) }
        ensures came { OnOk result (Consumes (S.Read.remaining stream.old)
            (S.Read.remaining stream.new) self.new.waiting) }
        ensures err { OnErr result (self.new.waiting ≡ []) }
        ensures kept { OnErr result (Keeps (S.Read.remaining stream.old)
            (S.Read.remaining stream.new)) }

        // The stream has ended if no byte came, or by an error other than these three.
        ensures end { MatchResult result
            (λ n. self.new.end ≡ end_at n)
            (λ error. IsNone self.new.end ↔ (error_kind error ≡ ErrorKind.WouldBlock)
            ⊎ (error_kind error ≡ ErrorKind.TimedOut)
            ⊎ (error_kind error ≡ ErrorKind.Interrupted)) }
        ensures cause { MatchResult result (λ _. ⊤)
            (λ error. IfSome self.new.end (λ cause. cause ≡ cause_of (raw_os_error error))) }
    {
        self.start = 0;
        self.stop = 0;
        let read = stream.read(&mut self.bytes);
        self.end = end_of(&read);
        self.stop = read?;
        Ok(self.stop)
    }
}
