//! The selected file is printed: the keeper writes the record first, and then what can't fail is changed.
ghost use Rattle.std.specs.Prelude.{◌≡◌, ℕ, true, OnOk};
ghost use Rattle.job_desk.specs.Table.{restart_at, start_at};
ghost use Rattle.octo_house_rules.specs.Known.{next_print_number};
ghost use Rattle.octo_house_rules.specs.Prints.{has_room, new_row, start_verdict, restart_verdict};
ghost use Rattle.octo_house.specs.Answered.{Answers, KeeperDone};
ghost use Rattle.octo_house.specs.State.{known_of};

use super::House;
use byte_text::Name;
use job_desk::{Refusal, State};
use octo_asks::Answer;
use octo_house_tables::{answer_of_keeper_fault, answer_of_refusal, check_job};
use octo_keeper::Keeper;
use print_queue::{Ending, Outcome, PrintRow};

impl House {
    // Refuses a start that the desk would refuse.
    fn may_start(&self) -> Result<(), Refusal>
        ensures { (print : ℕ) → result
            ≡ (start_at self.now.desk.session.desk.state print self.now.desk.session.desk).0 }
    {
        let desk = self.desk.session.desk();
        let state = desk.state();
        if state != State::Operational {
            return Err(Refusal::WrongState { state });
        }
        let Some(job) = desk.job() else {
            return Err(Refusal::NoFile);
        };
        check_job(job, desk.limits())
    }

    // The record of a print of the selected file, for which there is room.
    fn selected_row(&self, user: &Name) -> PrintRow
        requires { has_room (known_of self.now) ≡ true }
        ensures { result ≡ new_row (next_print_number (known_of self.now)) user.now
            self.now.desk.session.desk.file }
    {
        let desk = self.desk.session.desk();
        match (desk.selected(), desk.job()) {
            (Some(name), Some(job)) => self.tables.next_row(user, name, job.count()),
            _ => self.tables.next_row(user, &Name::new(), 0),
        }
    }

    // Starts a print of the selected file for a user.
    pub(super) fn start<K: Keeper>(&mut self, keeper: &mut K, user: &Name) -> Answer
        ensures done { Answers (start_verdict user.now (known_of self.old)) result
            self.old self.new }
        ensures rest { KeeperDone (K.state keeper.old) (K.state keeper.new)
            result self.old self.new }
    {
        if let Err(refusal) = self.may_start() {
            return answer_of_refusal(refusal);
        }
        if let Err(full) = self.tables.check_room() {
            return full;
        }
        let row = self.selected_row(user);
        let number = row.number;
        if let Err(fault) = self.tables.begin_print(keeper, None, row, None) {
            return answer_of_keeper_fault(fault);
        }
        let _ = self.desk.session.start(number);
        Answer::Accepted
    }

    // The print that a restart ends, or a refusal if the desk would refuse it.
    fn may_restart(&self) -> Result<u32, Refusal>
        ensures answer { (print : ℕ) → result
            ≡ (restart_at self.now.desk.session.desk.state print self.now.desk.session.desk).0 }
        ensures active { OnOk result (self.now.desk.session.desk.active ≡ true) }
    {
        let state = self.desk.session.desk().state();
        match (state, self.desk.session.desk().print()) {
            (State::Paused, Some(print)) => Ok(print),
            _ => Err(Refusal::WrongState { state }),
        }
    }

    // Ends the paused print and starts another one of its file for a user.
    pub(super) fn restart<K: Keeper>(&mut self, keeper: &mut K, user: &Name) -> Answer
        ensures done { Answers (restart_verdict user.now (known_of self.old)) result
            self.old self.new }
        ensures rest { KeeperDone (K.state keeper.old) (K.state keeper.new)
            result self.old self.new }
    {
        let print = match self.may_restart() {
            Ok(print) => print,
            Err(refusal) => return answer_of_refusal(refusal),
        };
        if let Err(full) = self.tables.check_room() {
            return full;
        }
        let ending = Ending {
            print,
            outcome: Outcome::Cancelled,
        };
        let row = self.selected_row(user);
        let number = row.number;
        if let Err(fault) = self.tables.begin_print(keeper, Some(ending), row, None) {
            return answer_of_keeper_fault(fault);
        }
        let _ = self.desk.session.restart(number);
        Answer::Accepted
    }
}
