//! The calls of the desk, which a session hands on: they change the desk alone.
ghost use Rattle.std.specs.Prelude.{◌≡◌, ◌↔◌, ◌<◌, true, false, Ok, Err, MatchResult, All};
ghost use Rattle.byte_text.specs.Sendable.{IsSendable};
ghost use Rattle.job_desk.specs.Table.{cancel_at, connect_at, disconnect_at, drop_file_step, is_stop, manual_at, pause_at, restart_at, resume_at, select_at, start_at, toggle_at};
ghost use Rattle.job_desk.specs.Data.{named_file};
ghost use Rattle.job_desk.specs.Views.{bytes_of};
ghost use Rattle.octo_session.specs.Data.{IsSession, doing};
ghost use Rattle.octo_session.specs.declared.found.Doing.TheVariants as now_doing;
ghost use Rattle.job_desk.specs.declared.state.State.TheVariants as state;

use super::Session;
use byte_text::{Name, Text};
use gcode_lines::Job;
use job_desk::{NotSelected, Refusal};

impl Session {
    /// Begins to connect to a port. Refused as WrongState except in Offline and Fault.
    pub fn connect(&mut self, port: &Name) -> Result<(), Refusal>
        ensures answer { result ≡ (connect_at self.old.desk.state port.now self.old.desk).0 }
        ensures after { self.new
            ≡ record self.old { desk = (connect_at self.old.desk.state port.now self.old.desk).1 } }
        ensures joined { IsSession self.new }
    {
        self.desk.connect(port)
    }

    /// Ends the connection; if it was ready, the Disconnect script comes first. A second call doesn't wait for that script: the
    /// next turn hangs up, whatever is unacknowledged, unless it has to send the line that stops the printer first.
    #[tactic(auto, using(crate::proofs::Choosing::hangs_up_at_once))]
    pub fn disconnect(&mut self)
        ensures after { self.new
            ≡ record self.old { desk = (disconnect_at self.old.desk.state self.old.desk) } }
        ensures at_once { self.old.desk.state ≡ state.Closing → self.old.desk.stopped ≡ false
            → doing self.new ≡ now_doing.HangingUp }
        ensures joined { IsSession self.new }
    {
        self.desk.disconnect();
    }

    /// Selects a file. Refused as WrongState except in Offline, Connecting, Operational and Fault; a refusal hands the job back.
    pub fn select(&mut self, name: &Name, job: Job) -> Result<(), NotSelected>
        ensures answer { let selected = select_at self.old.desk.state (named_file name.now job)
            self.old.desk in MatchResult result
            (λ _. selected.0 ≡ Ok tt)
            (λ refused. (selected.0 ≡ Err refused.refusal) × (refused.job ≡ job)) }
        ensures after { self.new
            ≡ record self.old {
              desk = (select_at self.old.desk.state (named_file name.now job)
                  self.old.desk).1;
            } }
        ensures joined { IsSession self.new }
    {
        self.desk.select(name, job)
    }

    /// The file of this name is no longer selected. Refused as FileBusy while it is being printed.
    pub fn drop_file(&mut self, name: &Name) -> Result<(), Refusal>
        ensures answer { result ≡ (drop_file_step name.now self.old.desk).0 }
        ensures after { self.new
            ≡ record self.old { desk = (drop_file_step name.now self.old.desk).1 } }
        ensures joined { IsSession self.new }
    {
        self.desk.drop_file(name)
    }

    /// Starts a print of the selected file. Refused as WrongState except in Operational, as NoFile if no file is selected, and
    /// as TooHotLine if a command of the file is too hot.
    pub fn start(&mut self, print: u32) -> Result<(), Refusal>
        requires { self.old.desk.greatest < print }
        ensures answer { result ≡ (start_at self.old.desk.state print self.old.desk).0 }
        ensures after { self.new
            ≡ record self.old { desk = (start_at self.old.desk.state print self.old.desk).1 } }
        ensures joined { IsSession self.new }
    {
        self.desk.start(print)
    }

    /// Ends the paused print as cancelled and starts a new one. Returns the ended print. Refused as WrongState except in Paused.
    pub fn restart(&mut self, print: u32) -> Result<u32, Refusal>
        requires { self.old.desk.greatest < print }
        ensures answer { result ≡ (restart_at self.old.desk.state print self.old.desk).0 }
        ensures after { self.new
            ≡ record self.old { desk = (restart_at self.old.desk.state print self.old.desk).1 } }
        ensures joined { IsSession self.new }
    {
        self.desk.restart(print)
    }

    /// Pauses the print, once the lines that are on their way are acknowledged; does nothing in Pausing and Paused. Refused as
    /// WrongState except in these two and in Printing.
    pub fn pause(&mut self) -> Result<(), Refusal>
        ensures answer { result ≡ (pause_at self.old.desk.state self.old.desk).0 }
        ensures after { self.new
            ≡ record self.old { desk = (pause_at self.old.desk.state self.old.desk).1 } }
        ensures joined { IsSession self.new }
    {
        self.desk.pause()
    }

    /// Resumes a paused print; does nothing in Printing. Refused as WrongState except in Paused and Printing.
    pub fn resume(&mut self) -> Result<(), Refusal>
        ensures answer { result ≡ (resume_at self.old.desk.state self.old.desk).0 }
        ensures after { self.new
            ≡ record self.old { desk = (resume_at self.old.desk.state self.old.desk).1 } }
        ensures joined { IsSession self.new }
    {
        self.desk.resume()
    }

    /// Pauses a print in Printing, resumes one in Paused. Refused as WrongState in all other states.
    pub fn toggle(&mut self) -> Result<(), Refusal>
        ensures answer { result ≡ (toggle_at self.old.desk.state self.old.desk).0 }
        ensures after { self.new
            ≡ record self.old { desk = (toggle_at self.old.desk.state self.old.desk).1 } }
        ensures joined { IsSession self.new }
    {
        self.desk.toggle()
    }

    /// Cancels the print: no more file commands are issued. Refused as WrongState except in Printing, Pausing and Paused.
    pub fn cancel(&mut self) -> Result<(), Refusal>
        ensures answer { result ≡ (cancel_at self.old.desk.state self.old.desk).0 }
        ensures after { self.new
            ≡ record self.old { desk = (cancel_at self.old.desk.state self.old.desk).1 } }
        ensures joined { IsSession self.new }
    {
        self.desk.cancel()
    }

    /// Takes the lines of a user, all or none. Refused as WrongState except in Operational, Printing, Pausing, Paused, Cancelling
    /// and Finishing, and as Full if more than 256 lines would wait.
    ///
    /// If the only line is `M112` it stops the printer, as `Desk::manual` says: the next turn over the link issues it alone, past
    /// the window if that is full, and the turn after it hangs up. While the desk connects it is taken exactly if the link is up.
    pub fn manual(&mut self, lines: &[Text]) -> Result<(), Refusal>
        requires { All IsSendable (bytes_of lines.now) }
        ensures answer { result
            ≡ (manual_at self.old.desk.state (bytes_of lines.now) self.old.desk).0 }
        ensures after { self.new
            ≡ record self.old {
              desk = (manual_at self.old.desk.state (bytes_of lines.now)
                  self.old.desk).1;
            } }
        ensures early { self.old.desk.state ≡ state.Connecting → is_stop (bytes_of lines.now) ≡ true
            → (result ≡ Ok tt) ↔ (self.old.up ≡ true) }
        ensures joined { IsSession self.new }
    {
        self.desk.manual(lines)
    }
}
