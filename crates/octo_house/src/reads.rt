//! The requests that show connection, printer and print.
ghost use Rattle.std.specs.Prelude.{◌≡◌, option_map};
ghost use Rattle.octo_house_rules.specs.Reads.{limits_verdict, connection_verdict, printer_verdict, job_verdict, shutdown_verdict, progress_of, selected_shown};
ghost use Rattle.octo_house_rules.specs.States.{shown_port};
ghost use Rattle.octo_house_tables.specs.Counts.{IsPlain};
ghost use Rattle.octo_house.specs.Facing.{Faces};

use crate::HostDesk;
use byte_text::Name;
use job_desk::State;
use octo_asks::{Answer, Progress, ShownFile};
use octo_house_tables::{copy_names, may_show, may_shut_down, progress, shown_heat};

impl HostDesk {
    // The port as it is shown: `None` while nothing is connected.
    fn shown_port(&self) -> Option<Name>
        ensures { result ≡ shown_port self.now.session.desk.state self.now.session.desk.port }
    {
        match self.session.desk().state() {
            State::Offline | State::Fault => None,
            State::Connecting
            | State::Operational
            | State::Printing
            | State::Pausing
            | State::Paused
            | State::Cancelling
            | State::Finishing
            | State::Closing => match self.session.desk().port() {
                Some(port) => Some(port.copy()),
                None => None,
            },
        }
    }

    /// The state of the connection, and all ports.
    pub fn connection(&self) -> Answer
        ensures done { Faces connection_verdict result self.now self.now }
        ensures plain { IsPlain result }
    {
        let Ok(ports) = copy_names(self.alloc, self.ports.as_slice()) else {
            return Answer::NoMemory;
        };
        Answer::Connection {
            port: self.shown_port(),
            state: self.session.desk().state(),
            ports,
        }
    }

    /// The printer's state and the temperatures that are known.
    pub fn printer(&self) -> Answer
        ensures done { Faces printer_verdict result self.now self.now }
        ensures plain { IsPlain result }
    {
        let state = self.session.desk().state();
        if !may_show(state) {
            return Answer::WrongState { state };
        }
        Answer::Printer {
            state,
            tool: shown_heat(self.temps.tool),
            bed: shown_heat(self.temps.bed),
        }
    }

    /// The greatest temperatures that a command may ask for.
    pub fn limits(&self) -> Answer
        ensures done { Faces limits_verdict result self.now self.now }
        ensures plain { IsPlain result }
    {
        let limits = self.session.desk().limits();
        Answer::Limits {
            tool: limits.tool,
            bed: limits.bed,
        }
    }

    // The selected file.
    fn shown_file(&self) -> Option<ShownFile>
        ensures { result ≡ option_map selected_shown self.now.session.desk.file }
    {
        let desk = self.session.desk();
        match (desk.selected(), desk.job()) {
            (Some(name), Some(job)) => Some(ShownFile {
                name: name.copy(),
                size: u64::from(job.bytes()),
            }),
            _ => None,
        }
    }

    // How far the active print is.
    fn progress(&self) -> Option<Progress>
        ensures { result ≡ progress_of self.now.session.desk }
    {
        let desk = self.session.desk();
        match (desk.print(), desk.job()) {
            (Some(_), Some(job)) => Some(progress(desk.cursor(), job)),
            _ => None,
        }
    }

    /// The selected file, the progress of its print, and the state.
    pub fn job(&self) -> Answer
        ensures done { Faces job_verdict result self.now self.now }
        ensures plain { IsPlain result }
    {
        Answer::Job {
            file: self.shown_file(),
            progress: self.progress(),
            state: self.session.desk().state(),
        }
    }

    /// Whether the host may end now; whoever runs it sees the answer.
    pub fn shut_down(&self) -> Answer
        ensures done { Faces shutdown_verdict result self.now self.now }
        ensures plain { IsPlain result }
    {
        let state = self.session.desk().state();
        if !may_shut_down(state) {
            return Answer::WrongState { state };
        }
        Answer::Accepted
    }
}
