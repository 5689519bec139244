//! The desk of a print host.
ghost use Rattle.std.specs.Prelude.{◌≡◌, ◌≤◌, ◌*◌, IfOk};
ghost use Rattle.std.specs.Option.{option_map, option_copied};
ghost use Rattle.job_desk.specs.Data.{new_desk};
ghost use Rattle.job_desk.specs.Endings.{IsActive};
ghost use Rattle.job_desk.specs.Table.{active_print, closing_line, is_closable_at, is_stopping};
ghost use Rattle.job_desk.specs.Scripts.{most_script_lines, own_lines};

mod allowed;
mod calls;
mod note;
mod pull;
#[cfg(test)]
mod tests;

use crate::scripts::Scripts;
use crate::waiting::Waiting;
use crate::{Limits, Point, Refusal, State};
use byte_text::{Name, Text};
use circular_buffer::HeapCircularBuffer;
use gcode_lines::Job;
use std::alloc::{AllocError, Global};
use std::marker::Model;

// The most lines of users that wait.
const MOST_MANUAL: usize = 256;

/// A file that is refused, with its job.
#[derive(Drop)]
pub struct NotSelected {
    pub refusal: Refusal,
    pub job: Job,
}

// The selected file.
#[derive(Drop)]
struct Selected {
    name: Name,
    job: Job,
}

// The prints of a desk: the greatest number so far, whether that print is active, and the index of its next file
// command.
#[derive(Clone, Copy)]
struct Prints {
    greatest: u32,
    active: bool,
    cursor: usize,
}

// The lines of a session: how many were issued and acknowledged, and the numbers of the print's last one, of the last poll
// and of the last line that is no poll, 0 for none.
#[derive(Clone, Copy)]
struct Lines {
    issued: u64,
    acked: u32,
    of_print: u64,
    of_poll: u64,
    last: u64,
}

/// The desk of a print host: it says which line is to be issued next, and keeps the states of OctoPrint's printer.
#[derive(Drop)]
pub struct Desk {
    limits: Limits,
    poll_ms: u64,
    // Whether the printer's `ok`s have numbers.
    numbered: bool,
    state: State,
    port: Option<Name>,
    file: Option<Selected>,
    prints: Prints,
    // The script lines that wait to be issued.
    waiting: Waiting,
    // The users' lines that wait to be issued.
    manual: HeapCircularBuffer<Text>,
    // The moment from which on a poll is due.
    poll_at: u64,
    // The moment from which on a probe is due, if something waits for its `ok`.
    probe_at: u64,
    lines: Lines,
    // Whether the end of the connection waits for its script: the hello was acknowledged since the last accepted connect, and no
    // second disconnect came.
    ready: bool,
    // Whether a user's line stops the printer: it alone is issued, and then the link is hung up.
    stopped: bool,
    // Whether a link is made.
    linked: bool,
}

impl Model for Desk {
    ghost use Rattle.job_desk.specs.Data.{Data};

    ghost Value = { Data };

    ghost use Rattle.job_desk.specs.DeskViews.{desk_data, IsDesk};

    ghost view = { desk_data };

    ghost invariant = { IsDesk };
}

impl Desk {
    /// A desk that is offline. A poll is due `poll_ms` milliseconds after the last one, at least 1. Fails if out of memory.
    ///
    /// If the printer's `ok`s have numbers, a lost `ok` is made good: with nothing else to issue, something unacknowledged, and
    /// nothing more acknowledged for `poll_ms`, the desk issues the probe `M400` in place of a poll. No probe is waited for when a
    /// connection ends.
    ///
    /// Source: Marlin, `ADVANCED_OK`, M105 (its reply has no number) and M400 (finish moves).
    pub fn new(
        alloc: Global,
        scripts: Scripts,
        limits: Limits,
        poll_ms: u64,
        numbered: bool,
    ) -> Result<Desk, AllocError>
        requires { 1 ≤ poll_ms }
        ensures { IfOk result (λ desk. desk ≡ new_desk scripts limits poll_ms numbered) }
    {
        let manual = HeapCircularBuffer::with_capacity(alloc, MOST_MANUAL)?;
        Ok(Desk {
            limits,
            poll_ms,
            numbered,
            state: State::Offline,
            port: None,
            file: None,
            prints: Prints {
                greatest: 0,
                active: false,
                cursor: 0,
            },
            waiting: Waiting::new(scripts),
            manual,
            poll_at: 0,
            probe_at: 0,
            lines: Lines {
                issued: 0,
                acked: 0,
                of_print: 0,
                of_poll: 0,
                last: 0,
            },
            ready: false,
            stopped: false,
            linked: false,
        })
    }

    /// The number of lines that the scripts of a print with its own connection have, at most 256.
    pub fn script_lines(&self) -> usize
        ensures value { result ≡ own_lines self.now.scripts }
        ensures few { result ≤ 4 * most_script_lines }
    {
        let scripts = self.waiting.scripts();
        scripts.count(Point::Connected)
            + scripts.count(Point::Started)
            + scripts.count(Point::Done)
            + scripts.count(Point::Disconnect)
    }

    /// The limits that it was made with.
    pub fn limits(&self) -> &Limits
        ensures { result.now ≡ self.now.limits }
    {
        &self.limits
    }

    /// What the desk does with its printer. While a print goes on it is active.
    pub fn state(&self) -> State
        ensures state { result ≡ self.now.state }
        ensures going { IsActive self.now }
    {
        self.state
    }

    /// The port of the last connect.
    pub fn port(&self) -> Option<&Name>
        ensures { option_copied result ≡ self.now.port }
    {
        self.port.as_ref()
    }

    /// The name of the selected file.
    pub fn selected(&self) -> Option<&Name>
        ensures { option_copied result ≡ option_map (λ f. f.name) self.now.file }
    {
        match &self.file {
            Some(file) => Some(&file.name),
            None => None,
        }
    }

    /// The job of the selected file.
    pub fn job(&self) -> Option<&Job>
        ensures { option_copied result ≡ option_map (λ f. f.job) self.now.file }
    {
        match &self.file {
            Some(file) => Some(&file.job),
            None => None,
        }
    }

    /// The print that is going on.
    pub fn print(&self) -> Option<u32>
        ensures { result ≡ active_print self.now }
    {
        if self.prints.active {
            Some(self.prints.greatest)
        } else {
            None
        }
    }

    /// The index of the next file command, from 0.
    pub fn cursor(&self) -> usize
        ensures { result ≡ self.now.cursor }
    {
        self.prints.cursor
    }

    /// Whether the line that stops the printer is to be issued next, alone.
    pub fn stops(&self) -> bool
        ensures { result ≡ is_stopping self.now }
    {
        self.state == State::Closing && self.stopped && self.manual.len() == 1
    }

    // The line up to which all must be acknowledged before a connection is closed.
    fn closing_line(&self) -> u64
        ensures { result ≡ closing_line self.now }
    {
        if self.numbered {
            self.lines.last
        } else {
            self.lines.issued
        }
    }

    /// Whether the connection may be closed now. The desk is closing, and one of these holds: the line that stops the printer was
    /// issued; or none is to be, and its last script is over and acknowledged, no hello was acknowledged since the last accepted
    /// connect, or a second disconnect came.
    pub fn closable(&self) -> bool
        ensures { result ≡ is_closable_at self.now.state self.now }
    {
        match self.state {
            State::Closing if self.stopped => self.manual.is_empty(),
            State::Closing => {
                self.waiting.is_empty() && self.closing_line() <= u64::from(self.lines.acked)
                    || !self.ready
            }
            _ => false,
        }
    }
}
