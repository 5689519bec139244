//! Whether the desk would refuse a call.
ghost use Rattle.std.specs.Prelude.{◌≡◌, ℕ, true, OnOk};
ghost use Rattle.job_desk.specs.Data.{File};
ghost use Rattle.job_desk.specs.Table.{drop_file_step, is_named, restart_at, select_at, start_at};

use super::Desk;
use crate::{Refusal, State};
use byte_text::Name;
use temp_rules::first_hot;

impl Desk {
    // The call is not for this state.
    pub(super) fn wrong_state(&self) -> Refusal
        ensures { result ≡ Refusal.WrongState self.now.state }
    {
        Refusal::WrongState { state: self.state }
    }

    // Whether the selected file has this name.
    pub(super) fn is_selected(&self, name: &Name) -> bool
        ensures { result ≡ is_named name.now self.now.file }
    {
        match &self.file {
            Some(file) => file.name.is(name),
            None => false,
        }
    }

    /// Refuses what `select` would refuse: as WrongState except in Offline, Connecting, Operational and Fault.
    pub fn may_select(&self) -> Result<(), Refusal>
        ensures { (file : File) → result ≡ (select_at self.now.state file self.now).0 }
    {
        match self.state {
            State::Offline | State::Connecting | State::Operational | State::Fault => Ok(()),
            _ => Err(self.wrong_state()),
        }
    }

    /// Refuses what `drop_file` would refuse: as FileBusy a file that is being printed.
    pub fn may_drop(&self, name: &Name) -> Result<(), Refusal>
        ensures { result ≡ (drop_file_step name.now self.now).0 }
    {
        if self.is_selected(name) && self.prints.active {
            return Err(Refusal::FileBusy);
        }
        Ok(())
    }

    /// Refuses what `start` would refuse: as WrongState except in Operational, as NoFile if no file is selected, and as
    /// TooHotLine if a command of the file is too hot.
    pub fn may_start(&self) -> Result<(), Refusal>
        ensures answer { (print : ℕ) → result ≡ (start_at self.now.state print self.now).0 }
        ensures ready { OnOk result (self.now.state ≡ State.Operational) }
    {
        if self.state != State::Operational {
            return Err(self.wrong_state());
        }
        let Some(file) = &self.file else {
            return Err(Refusal::NoFile);
        };
        match first_hot(&file.job, &self.limits) {
            Some(hot) => Err(Refusal::TooHotLine {
                line: hot.line,
                asked: hot.asked,
                limit: hot.limit,
            }),
            None => Ok(()),
        }
    }

    /// The print that `restart` would end. Refuses what it would refuse: as WrongState except in Paused.
    pub fn may_restart(&self) -> Result<u32, Refusal>
        ensures answer { (print : ℕ) → result ≡ (restart_at self.now.state print self.now).0 }
        ensures paused { OnOk result (self.now.state ≡ State.Paused) }
        ensures active { OnOk result (self.now.active ≡ true) }
    {
        match self.state {
            State::Paused => Ok(self.prints.greatest),
            _ => Err(self.wrong_state()),
        }
    }
}
