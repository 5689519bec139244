//! The calls of the table: what a user asks of the desk.
ghost use Rattle.std.specs.Prelude.{◌≡◌, ◌<◌, ◌≤◌, ◌+◌, ◌++◌, ◌⊎◌, length, true, false, Ok, Err, MatchResult, All};
ghost use Rattle.byte_text.specs.Sendable.{IsSendable};
ghost use Rattle.job_desk.specs.Table.{add_manual, cancel_at, connect_at, disconnect_at, drop_file_step, is_closable_at, is_stop, manual_at, pause_at, printing, restart_at, resume_at, select_at, start_at, stop_alone, stopping, take_manual, toggle_at};
ghost use Rattle.job_desk.specs.Data.{named_file};
ghost use Rattle.job_desk.specs.Views.{bytes_of};

use super::{Desk, MOST_MANUAL, NotSelected, Prints, Selected};
use crate::{Point, Refusal, State};
use byte_text::{Name, Text, bounded_text};
use circular_buffer::HeapCircularBuffer;
use gcode_lines::Job;

// Marlin's emergency stop.
const STOP: &[u8] = b"M112";

impl Desk {
    /// Begins to connect to a port. Refused as WrongState except in Offline and Fault.
    pub fn connect(&mut self, port: &Name) -> Result<(), Refusal>
        ensures answer { result ≡ (connect_at self.old.state port.now self.old).0 }
        ensures after { self.new ≡ (connect_at self.old.state port.now self.old).1 }
    {
        match self.state {
            State::Offline | State::Fault => {
                self.state = State::Connecting;
                self.port = Some(port.copy());
                self.ready = false;
                Ok(())
            }
            _ => Err(self.wrong_state()),
        }
    }

    /// Ends the connection; if it was ready, the Disconnect script comes first. A second call doesn't wait for that script: the
    /// connection may then be closed whatever is unacknowledged, but not before the line that stops the printer.
    #[tactic(auto, using(crate::proofs::Disconnecting::closes_at_once))]
    pub fn disconnect(&mut self)
        ensures after { self.new ≡ disconnect_at self.old.state self.old }
        ensures at_once { self.old.state ≡ State.Closing → self.old.stopped ≡ false
            → is_closable_at self.new.state self.new ≡ true }
    {
        match self.state {
            State::Offline => {}
            State::Closing => self.ready = false,
            State::Fault => self.state = State::Offline,
            State::Connecting => self.state = State::Closing,
            _ => {
                self.state = State::Closing;
                self.manual.clear();
                self.waiting.add(Point::Disconnect, 0);
            }
        }
    }

    /// Selects a file. Refused as `may_select` says; a refusal hands the job back.
    pub fn select(&mut self, name: &Name, job: Job) -> Result<(), NotSelected>
        ensures answer { let selected = select_at self.old.state (named_file name.now job) self.old
            in MatchResult result
            (λ _. selected.0 ≡ Ok tt)
            (λ refused. (selected.0 ≡ Err refused.refusal) × (refused.job ≡ job)) }
        ensures after { self.new ≡ (select_at self.old.state (named_file name.now job) self.old).1 }
    {
        if let Err(refusal) = self.may_select() {
            return Err(NotSelected { refusal, job });
        }
        self.file = Some(Selected {
            name: name.copy(),
            job,
        });
        Ok(())
    }

    /// The file of this name is no longer selected. Refused as `may_drop` says.
    pub fn drop_file(&mut self, name: &Name) -> Result<(), Refusal>
        ensures answer { result ≡ (drop_file_step name.now self.old).0 }
        ensures after { self.new ≡ (drop_file_step name.now self.old).1 }
    {
        self.may_drop(name)?;
        if self.is_selected(name) {
            self.file = None;
        }
        Ok(())
    }

    // A new print of the selected file begins.
    fn begin(&mut self, print: u32)
        requires { (self.old.state ≡ State.Operational) ⊎ (self.old.state ≡ State.Paused) }
        ensures { self.new ≡ printing print self.old }
    {
        self.state = State::Printing;
        self.prints = Prints {
            greatest: print,
            active: true,
            cursor: 0,
        };
        self.lines.of_print = 0;
        self.waiting.add(Point::Started, print);
    }

    /// Starts a print of the selected file. Refused as `may_start` says.
    pub fn start(&mut self, print: u32) -> Result<(), Refusal>
        requires { self.old.greatest < print }
        ensures answer { result ≡ (start_at self.old.state print self.old).0 }
        ensures after { self.new ≡ (start_at self.old.state print self.old).1 }
    {
        self.may_start()?;
        self.begin(print);
        Ok(())
    }

    /// Ends the paused print as cancelled and starts a new one. Returns the ended print. Refused as `may_restart` says.
    pub fn restart(&mut self, print: u32) -> Result<u32, Refusal>
        requires { self.old.greatest < print }
        ensures answer { result ≡ (restart_at self.old.state print self.old).0 }
        ensures after { self.new ≡ (restart_at self.old.state print self.old).1 }
    {
        let ended = self.may_restart()?;
        self.begin(print);
        Ok(ended)
    }

    /// Pauses the print, once the lines that are on their way are acknowledged; does nothing in Pausing and Paused. Refused as
    /// WrongState except in these two and in Printing.
    pub fn pause(&mut self) -> Result<(), Refusal>
        ensures answer { result ≡ (pause_at self.old.state self.old).0 }
        ensures after { self.new ≡ (pause_at self.old.state self.old).1 }
    {
        match self.state {
            State::Printing => {
                self.state = State::Pausing;
                self.waiting.add(Point::Paused, self.prints.greatest);
                Ok(())
            }
            State::Pausing | State::Paused => Ok(()),
            _ => Err(self.wrong_state()),
        }
    }

    /// Resumes a paused print; does nothing in Printing. Refused as WrongState except in Paused and Printing.
    pub fn resume(&mut self) -> Result<(), Refusal>
        ensures answer { result ≡ (resume_at self.old.state self.old).0 }
        ensures after { self.new ≡ (resume_at self.old.state self.old).1 }
    {
        match self.state {
            State::Paused => {
                self.state = State::Printing;
                self.waiting.add(Point::Resumed, self.prints.greatest);
                Ok(())
            }
            State::Printing => Ok(()),
            _ => Err(self.wrong_state()),
        }
    }

    /// Pauses a print in Printing, resumes one in Paused. Refused as WrongState in all other states.
    pub fn toggle(&mut self) -> Result<(), Refusal>
        ensures answer { result ≡ (toggle_at self.old.state self.old).0 }
        ensures after { self.new ≡ (toggle_at self.old.state self.old).1 }
    {
        match self.state {
            State::Printing => self.pause(),
            State::Paused => self.resume(),
            _ => Err(self.wrong_state()),
        }
    }

    /// Cancels the print: no more file commands are issued. Refused as WrongState except in Printing, Pausing and Paused.
    pub fn cancel(&mut self) -> Result<(), Refusal>
        ensures answer { result ≡ (cancel_at self.old.state self.old).0 }
        ensures after { self.new ≡ (cancel_at self.old.state self.old).1 }
    {
        match self.state {
            State::Printing | State::Pausing | State::Paused => {
                self.state = State::Cancelling;
                self.waiting.add(Point::Cancelled, self.prints.greatest);
                Ok(())
            }
            _ => Err(self.wrong_state()),
        }
    }

    /// Takes the lines of a user, all or none. Refused as WrongState except in Operational, Printing, Pausing, Paused, Cancelling
    /// and Finishing, and as Full if more than 256 lines would wait.
    ///
    /// If the only line is `M112` it stops the printer: it alone is issued, and then the connection may be closed, which ends a
    /// print as failed. It is taken too in Connecting, once a link is made, and in Closing, while the end of the connection waits
    /// for its script and no such line was taken before.
    ///
    /// Source: Marlin, M112 (emergency stop) and `EMERGENCY_PARSER`.
    pub fn manual(&mut self, lines: &[Text]) -> Result<(), Refusal>
        requires { All IsSendable (bytes_of lines.now) }
        ensures answer { result ≡ (manual_at self.old.state (bytes_of lines.now) self.old).0 }
        ensures after { self.new ≡ (manual_at self.old.state (bytes_of lines.now) self.old).1 }
    {
        match self.state {
            State::Operational
            | State::Printing
            | State::Pausing
            | State::Paused
            | State::Cancelling
            | State::Finishing => self.take_lines(lines),
            State::Connecting => {
                let linked = self.linked;
                self.stop_alone(linked, lines)
            }
            State::Closing => {
                let may = self.ready && !self.stopped;
                self.stop_alone(may, lines)
            }
            _ => Err(self.wrong_state()),
        }
    }

    // Only the line that stops the printer is taken, and only if it may be.
    fn stop_alone(&mut self, may: bool, lines: &[Text]) -> Result<(), Refusal>
        requires { All IsSendable (bytes_of lines.now) }
        ensures answer { result ≡ (stop_alone may (bytes_of lines.now) self.old).0 }
        ensures after { self.new ≡ (stop_alone may (bytes_of lines.now) self.old).1 }
    {
        if is_stop(lines) && may {
            self.stop(lines);
            return Ok(());
        }
        Err(self.wrong_state())
    }

    // Lines over a ready link: the one that stops the printer, or others, which wait.
    fn take_lines(&mut self, lines: &[Text]) -> Result<(), Refusal>
        requires { All IsSendable (bytes_of lines.now) }
        ensures answer { result ≡ (take_manual (bytes_of lines.now) self.old).0 }
        ensures after { self.new ≡ (take_manual (bytes_of lines.now) self.old).1 }
    {
        if is_stop(lines) {
            self.stop(lines);
            return Ok(());
        }
        self.add_manual(lines)
    }

    // These lines are all that is still issued.
    fn stop(&mut self, lines: &[Text])
        requires sendable { All IsSendable (bytes_of lines.now) }
        requires one { is_stop (bytes_of lines.now) ≡ true }
        ensures { self.new ≡ stopping (bytes_of lines.now) self.old }
    {
        self.state = State::Closing;
        self.manual.clear();
        push_all(&mut self.manual, lines);
        self.ready = false;
        self.stopped = true;
    }

    fn add_manual(&mut self, lines: &[Text]) -> Result<(), Refusal>
        requires { All IsSendable (bytes_of lines.now) }
        ensures answer { result ≡ (add_manual (bytes_of lines.now) self.old).0 }
        ensures after { self.new ≡ (add_manual (bytes_of lines.now) self.old).1 }
    {
        let held = self.manual.len();
        if lines.len() > MOST_MANUAL - held {
            return Err(Refusal::Full { held: held as u32 });
        }
        push_all(&mut self.manual, lines);
        Ok(())
    }
}

// Whether these lines stop the printer: one line, which is `M112`.
fn is_stop(lines: &[Text]) -> bool
    ensures { result ≡ is_stop (bytes_of lines.now) }
{
    match lines {
        [line] => line.as_slice() == STOP,
        _ => false,
    }
}

// Puts copies of texts after those that wait.
fn push_all(waiting: &mut HeapCircularBuffer<Text>, lines: &[Text])
    requires sendable { All IsSendable (bytes_of lines.now) }
    requires room { length waiting.old.items + length lines.now ≤ waiting.old.capacity }
    ensures items { bytes_of waiting.new.items ≡ bytes_of waiting.old.items ++ bytes_of lines.now }
    ensures capacity { waiting.new.capacity ≡ waiting.old.capacity }
{
    for line in lines {
        let _ = waiting.try_push_back(bounded_text(line.as_slice()));
    }
}
