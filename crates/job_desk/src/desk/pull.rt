//! Which line is to be issued next.
ghost use Rattle.std.specs.Prelude.{◌≡◌, length, IfSome, slice_get};
ghost use Rattle.std.specs.Option.{option_map};
ghost use Rattle.byte_text.specs.Sendable.{IsSendable};
ghost use Rattle.job_desk.specs.Data.{commands_of};
ghost use Rattle.job_desk.specs.Pull.{draw_at, from_file, from_manual, from_poll, from_probe, from_scripts, keep_number, next_number, poll_is_due, polled_line, pull_step, settled, draw_in_order};
ghost use Rattle.job_desk.specs.Issued.{line_of};
ghost use Rattle.job_desk.specs.Views.{DrawsFrom};

use super::Desk;
use crate::{Issued, Point, State, Tag};
use byte_text::bounded_text;

// Marlin's question for temperatures.
const POLL: &[u8] = b"M105";

// A command that waits for all moves, whose `ok` has a number.
const PROBE: &[u8] = b"M400";

impl Desk {
    // How many commands the selected file has.
    fn count(&self) -> usize
        ensures { result ≡ length (commands_of self.now.file) }
    {
        match &self.file {
            Some(file) => file.job.count(),
            None => 0,
        }
    }

    // A line gets the next number of the session. Its print keeps it, and so does the poll, or what is kept of other lines.
    fn number(&mut self, tag: Tag)
        ensures { self.new ≡ keep_number tag (next_number self.old.issued)
            (record self.old { issued = next_number self.old.issued }) }
    {
        let number = self.lines.issued.saturating_add(1);
        self.lines.issued = number;
        match tag {
            Tag::Script { print, .. } => {
                self.lines.last = number;
                if print != 0 {
                    self.lines.of_print = number;
                }
            }
            Tag::Job { .. } => {
                self.lines.last = number;
                self.lines.of_print = number;
            }
            Tag::Manual => self.lines.last = number,
            Tag::Poll => self.lines.of_poll = number,
        }
    }

    // The first line of the scripts that wait.
    fn take_script(&mut self) -> Option<Issued>
        ensures drawn { DrawsFrom (from_scripts self.old.waiting self.old) result self.old
            self.new }
        ensures sendable { IfSome result (λ issued. IsSendable issued.text.items) }
    {
        let line = self.waiting.next()?;
        self.number(line.tag);
        Some(line)
    }

    // The oldest line of a user.
    fn take_manual(&mut self) -> Option<Issued>
        ensures drawn { DrawsFrom (from_manual self.old.manual self.old) result self.old self.new }
        ensures sendable { IfSome result (λ issued. IsSendable issued.text.items) }
    {
        let text = self.manual.pop_front()?;
        self.number(Tag::Manual);
        Some(Issued {
            text,
            tag: Tag::Manual,
        })
    }

    // The line up to which all must be acknowledged before a poll. The reply to a poll has no number, so if `ok`s have numbers
    // and no command brings one, a probe takes its place.
    fn polled_line(&self) -> u64
        ensures { result ≡ polled_line self.now }
    {
        match self.state {
            State::Printing => self.lines.of_poll,
            _ if self.numbered => self.lines.issued,
            _ => self.lines.of_poll,
        }
    }

    // Whether a poll is due.
    fn poll_is_due(&self, moment: u64) -> bool
        ensures { result ≡ poll_is_due moment self.now }
    {
        self.poll_at <= moment && self.polled_line() <= u64::from(self.lines.acked)
    }

    // A due poll.
    fn take_poll(&mut self, moment: u64) -> Option<Issued>
        ensures drawn { DrawsFrom (from_poll moment self.old) result self.old self.new }
        ensures sendable { IfSome result (λ issued. IsSendable issued.text.items) }
    {
        if !self.poll_is_due(moment) {
            return None;
        }
        self.poll_at = moment.saturating_add(self.poll_ms);
        self.number(Tag::Poll);
        Some(Issued {
            text: bounded_text(POLL),
            tag: Tag::Poll,
        })
    }

    // A due probe, in place of a poll: one of this many lines isn't acknowledged, and for a while nothing more was.
    fn take_probe(&mut self, awaited: u64, moment: u64) -> Option<Issued>
        ensures line { option_map line_of result ≡ (from_probe awaited moment self.old).0 }
        ensures after { self.new ≡ (from_probe awaited moment self.old).1 }
        ensures sendable { IfSome result (λ issued. IsSendable issued.text.items) }
    {
        let unacknowledged = u64::from(self.lines.acked) < awaited;
        if !(self.numbered && self.probe_at <= moment && unacknowledged) {
            return None;
        }
        let later = moment.saturating_add(self.poll_ms);
        self.poll_at = later;
        self.probe_at = later;
        self.number(Tag::Poll);
        Some(Issued {
            text: bounded_text(PROBE),
            tag: Tag::Poll,
        })
    }

    // The file command at the cursor, which moves on.
    fn take_command(&mut self) -> Option<Issued>
        ensures line { option_map line_of result
            ≡ (from_file (slice_get (commands_of self.old.file) self.old.cursor) self.old).0 }
        ensures after { self.new ≡ (from_file
            (slice_get (commands_of self.old.file) self.old.cursor) self.old).1 }
        ensures sendable { IfSome result (λ issued. IsSendable issued.text.items) }
    {
        let file = self.file.as_ref()?;
        let at = self.prints.cursor;
        if at >= file.job.count() {
            return None;
        }
        let text = bounded_text(file.job.get(at));
        let tag = Tag::Job {
            print: self.prints.greatest,
            index: at as u32,
        };
        self.prints.cursor = at + 1;
        self.number(tag);
        Some(Issued { text, tag })
    }

    // A line other than a file command.
    fn take_other(&mut self, moment: u64) -> Option<Issued>
        ensures drawn { DrawsFrom (draw_in_order moment self.old) result self.old self.new }
        ensures sendable { IfSome result (λ issued. IsSendable issued.text.items) }
    {
        if let Some(line) = self.take_script() {
            return Some(line);
        }
        if let Some(line) = self.take_manual() {
            return Some(line);
        }
        self.take_poll(moment)
    }

    // The next line, if any.
    fn draw(&mut self, moment: u64) -> Option<Issued>
        ensures line { option_map line_of result ≡ (draw_at self.old.state moment self.old).0 }
        ensures after { self.new ≡ (draw_at self.old.state moment self.old).1 }
        ensures sendable { IfSome result (λ issued. IsSendable issued.text.items) }
    {
        match self.state {
            State::Offline | State::Connecting | State::Fault => None,
            State::Closing if self.stopped => self.take_manual(),
            State::Closing => match self.take_script() {
                Some(line) => Some(line),
                None => self.take_probe(self.lines.last, moment),
            },
            State::Printing => match self.take_other(moment) {
                Some(line) => Some(line),
                None => self.take_command(),
            },
            _ => match self.take_other(moment) {
                Some(line) => Some(line),
                None => self.take_probe(self.lines.issued, moment),
            },
        }
    }

    // A print whose commands were all issued goes on to its last script.
    pub(super) fn settle(&mut self)
        ensures { self.new ≡ settled self.old }
    {
        if self.state == State::Printing
            && self.waiting.is_empty()
            && self.prints.cursor == self.count()
        {
            self.state = State::Finishing;
            self.waiting.add(Point::Done, self.prints.greatest);
        }
    }

    /// The next line to issue, which then counts as issued and may be sent; None if there is none. The moment is in
    /// milliseconds.
    pub fn pull(&mut self, moment: u64) -> Option<Issued>
        ensures line { option_map line_of result ≡ (pull_step moment self.old).0 }
        ensures after { self.new ≡ (pull_step moment self.old).1 }
        ensures sendable { IfSome result (λ issued. IsSendable issued.text.items) }
    {
        let line = self.draw(moment);
        self.settle();
        line
    }
}
