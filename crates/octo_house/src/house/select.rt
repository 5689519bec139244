//! Files that the shelf holds are selected and printed.
ghost use Rattle.std.specs.Prelude.{◌≡◌, [], true, false};
ghost use Rattle.job_desk.specs.declared.state.State.TheVariants as state;
ghost use Rattle.octo_keeper.specs.Tables.{with_taken};
ghost use Rattle.octo_house_rules.specs.Access.{is_denied};
ghost use Rattle.job_desk.specs.Data.{named_file};
ghost use Rattle.octo_house_rules.specs.States.{may_start};
ghost use Rattle.octo_house_rules.specs.Uploads.{select_verdict, next_verdict, take_verdict, print_verdict};
ghost use Rattle.octo_house.specs.Answered.{Answers, AnswersOn, AnswersOnSome, KeeperDone, PrintDone, ShelfDone};
ghost use Rattle.octo_house.specs.State.{IsDeskAlone, known_of};
ghost use Rattle.octo_house.specs.Taken.{taken_answer};

use super::House;
use byte_text::Name;
use gcode_lines::Job;
use job_desk::State;
use octo_asks::{Answer, ShownEntry};
use octo_house_tables::{
    answer_of_keeper_fault, answer_of_refusal, check_job, may_select, read_job,
};
use octo_keeper::{Keeper, Shelf};
use print_queue::QueueEntry;

// Whether a print may be started in this state.
fn may_start(state: State) -> bool
    ensures { result ≡ may_start state }
{
    matches!(state, State::Operational)
}

impl House {
    // Selects a file.
    pub(super) fn select_named<S: Shelf>(&mut self, shelf: &mut S, name: &Name) -> Answer
        ensures done { AnswersOn (S.state shelf.old).files
            (λ files. select_verdict [] name.now false files (known_of self.old)) result
            self.old self.new }
        ensures some { AnswersOnSome
            (λ files. select_verdict [] name.now false files (known_of self.old)) result
            self.old self.new }
        ensures granted { is_denied result ≡ false }
        ensures alone { IsDeskAlone self.old self.new }
        ensures rest { ShelfDone (S.state shelf.old) (S.state shelf.new) result }
    {
        if !self.holds(name) {
            return Answer::NoFile;
        }
        let state = self.desk.session.desk().state();
        if !may_select(state) {
            return Answer::WrongState { state };
        }
        match read_job(self.desk.alloc, shelf, name) {
            Ok(job) => {
                let _ = self.desk.session.select(name, job);
                Answer::Accepted
            }
            Err(answer) => answer,
        }
    }

    // Selects a file and starts its print for a user.
    pub(super) fn print_named<K: Keeper, S: Shelf>(
        &mut self,
        keeper: &mut K,
        shelf: &mut S,
        user: &Name,
        name: &Name,
    ) -> Answer
        ensures done { AnswersOn (S.state shelf.old).files
            (λ files. select_verdict user.now name.now true files (known_of self.old)) result
            self.old self.new }
        ensures some { AnswersOnSome
            (λ files. select_verdict user.now name.now true files (known_of self.old)) result
            self.old self.new }
        ensures granted { is_denied result ≡ false }
        ensures rest { PrintDone (K.state keeper.old) (K.state keeper.new)
            (S.state shelf.old) (S.state shelf.new) result self.old self.new }
    {
        if !self.holds(name) {
            return Answer::NoFile;
        }
        let state = self.desk.session.desk().state();
        if state != State::Operational {
            return Answer::WrongState { state };
        }
        match read_job(self.desk.alloc, shelf, name) {
            Ok(job) => self.print_job(keeper, user, name, job, None),
            Err(answer) => answer,
        }
    }

    // Selects a job and starts its print for a user; it may be a copy of an entry of the queue.
    fn print_job<K: Keeper>(
        &mut self,
        keeper: &mut K,
        user: &Name,
        name: &Name,
        job: Job,
        taken: Option<QueueEntry>,
    ) -> Answer
        requires { self.old.desk.session.desk.state ≡ state.Operational }
        ensures done { Answers (print_verdict (taken_answer taken) user.now
            (with_taken taken self.old.tables.queue) (known_of self.old)
            (named_file name.now job)) result self.old self.new }
        ensures rest { KeeperDone (K.state keeper.old) (K.state keeper.new)
            result self.old self.new }
    {
        if let Err(refusal) = check_job(&job, self.desk.session.desk().limits()) {
            return answer_of_refusal(refusal);
        }
        if let Err(full) = self.tables.check_room() {
            return full;
        }
        let row = self.tables.next_row(user, name, job.count());
        let number = row.number;
        let accepted = taken_answer(&taken);
        if let Err(fault) = self.tables.begin_print(keeper, None, row, taken) {
            return answer_of_keeper_fault(fault);
        }
        let _ = self.desk.session.select(name, job);
        let _ = self.desk.session.start(number);
        accepted
    }

    // Starts one copy of the next entry of the queue that fits the printer, for the entry's user.
    pub(super) fn print_next<K: Keeper, S: Shelf>(
        &mut self,
        keeper: &mut K,
        shelf: &mut S,
    ) -> Answer
        ensures done { AnswersOn (S.state shelf.old).files
            (λ files. next_verdict files (known_of self.old)) result self.old self.new }
        ensures some { AnswersOnSome
            (λ files. next_verdict files (known_of self.old)) result self.old self.new }
        ensures granted { is_denied result ≡ false }
        ensures rest { PrintDone (K.state keeper.old) (K.state keeper.new)
            (S.state shelf.old) (S.state shelf.new) result self.old self.new }
    {
        let state = self.desk.session.desk().state();
        if !may_start(state) {
            return Answer::WrongState { state };
        }
        match self.tables.next_entry(&self.material) {
            Some(entry) => self.print_entry(keeper, shelf, entry),
            None => Answer::NoEntry,
        }
    }

    // Starts one copy of an entry for its user.
    fn print_entry<K: Keeper, S: Shelf>(
        &mut self,
        keeper: &mut K,
        shelf: &mut S,
        entry: QueueEntry,
    ) -> Answer
        requires { self.old.desk.session.desk.state ≡ state.Operational }
        ensures done { AnswersOn (S.state shelf.old).files
            (λ files. take_verdict files (known_of self.old) entry) result self.old self.new }
        ensures some { AnswersOnSome
            (λ files. take_verdict files (known_of self.old) entry) result self.old self.new }
        ensures granted { is_denied result ≡ false }
        ensures rest { PrintDone (K.state keeper.old) (K.state keeper.new)
            (S.state shelf.old) (S.state shelf.new) result self.old self.new }
    {
        if !self.holds(&entry.file) {
            return Answer::NoFile;
        }
        let user = entry.user.copy();
        let file = entry.file.copy();
        match read_job(self.desk.alloc, shelf, &file) {
            Ok(job) => self.print_job(keeper, &user, &file, job, Some(entry)),
            Err(answer) => answer,
        }
    }
}

// The answer to a print that began: of a file, or of an entry as it was before.
fn taken_answer(taken: &Option<QueueEntry>) -> Answer
    ensures { result ≡ taken_answer taken.now }
{
    match taken {
        Some(entry) => Answer::TakenEntry {
            entry: ShownEntry::of(entry),
        },
        None => Answer::Accepted,
    }
}
