//! Uploads: a file is stored, and as it is asked selected and printed.
ghost use Rattle.std.specs.Prelude.{◌≡◌, ◌≤◌, ℕ, List, None, Some, true, false, [], ◌∷◌, length, is_none, option_map, OnOk, OnErr, MatchResult};
ghost use Rattle.job_desk.specs.Run.{Start};
ghost use Rattle.gcode_lines.specs.Job.{most_bytes};
ghost use Rattle.octo_keeper.specs.Files.{with_file};
ghost use Rattle.octo_asks.specs.declared.answer.Answer.TheVariants as answer;
ghost use Rattle.octo_house_rules.specs.Known.{next_print_number, shown_count};
ghost use Rattle.temp_rules.specs.Hot.{first_hot_of};
ghost use Rattle.octo_house_rules.specs.Prints.{has_room, start_deed};
ghost use Rattle.job_desk.specs.Data.{named_file};
ghost use Rattle.octo_house_rules.specs.Uploads.{put_file_verdict, has_file_room, is_selected, is_printed, print_refusal, refusal_of, unprinted};
ghost use Rattle.octo_house_rules.specs.Verdict.{begins, is_fault};
ghost use Rattle.octo_house.specs.Answered.{Answers, Shelves, AskDone, KeeperDone};
ghost use Rattle.octo_outside.specs.Recorded.{Counts};
ghost use Rattle.octo_house_tables.specs.Reading.{is_keepers_fault, is_shelfs_fault};
ghost use Rattle.octo_house.specs.State.{AreRowsLeft, IsListed, known_of};
ghost use Rattle.octo_house.specs.Storing.{IsStored, IsNotStored, IsStartable, cause_of};

use super::House;
use byte_text::Name;
use gcode_lines::Job;
use job_desk::{Limits, State};
use octo_access::{Permission, UserRow};
use octo_asks::{Answer, PrintRefusal, StoredCause, Upload};
use octo_house_tables::{
    add_name, answer_of_refusal, answer_of_shelf_fault, bad_file, may_select, reserve_name,
};
use octo_keeper::{Keeper, KeeperFault, Shelf};
use temp_rules::first_hot;

const MOST_FILES: usize = 1_000;

// What an upload asks for beside storing, or may have of it.
#[derive(Clone, Copy)]
pub(super) struct Wanted {
    pub select: bool,
    pub print: bool,
}

impl House {
    // Stores a file, and as it is asked selects and prints it for a user.
    pub(super) fn put_file<K: Keeper, S: Shelf>(
        &mut self,
        keeper: &mut K,
        shelf: &mut S,
        user: &UserRow,
        name: &Name,
        file: Upload,
        asked: Wanted,
    ) -> Answer
        ensures done { Answers (put_file_verdict user.now name.now file
            asked.select asked.print (known_of self.old)) result self.old self.new }
        ensures files { Shelves (S.state shelf.old).files (S.state shelf.new).files
            (λ _. put_file_verdict user.now name.now file
            asked.select asked.print (known_of self.old)) result }
        ensures rest { AskDone (K.state keeper.old) (K.state keeper.new)
            (S.state shelf.old) (S.state shelf.new) result self.old self.new }
    {
        let part = file.part();
        let job = match file.into_job() {
            Ok(job) => job,
            Err(fault) => return bad_file(fault),
        };
        if let Err(answer) = self.store(shelf, name, &job, part) {
            return answer;
        }
        let wanted = self.wanted(user, &job, asked);
        let refusal = self.refusal_of(user, &job, asked, wanted);
        if !wanted.select {
            return unprinted(name, false, refusal);
        }
        let commands = job.count();
        let _ = self.desk.session.select(name, job);
        if !wanted.print {
            return unprinted(name, true, refusal);
        }
        self.print_stored(keeper, &user.name, name, commands)
    }

    // Stores the file of a job, which a stager may have written as that part, in the place of a former one, whose selection is
    // dropped.
    fn store<S: Shelf>(
        &mut self,
        shelf: &mut S,
        name: &Name,
        job: &Job,
        part: Option<u8>,
    ) -> Result<(), Answer>
        ensures stored { MatchResult result
            (λ _. IsStored name.now self.old self.new)
            (λ answer. IsNotStored name.now self.old self.new answer) }
        ensures files { OnOk result ((S.state shelf.new).files
            ≡ option_map (with_file name.now job.now.file) (S.state shelf.old).files) }
        ensures same { OnErr result ((S.state shelf.new).files ≡ (S.state shelf.old).files) }
        ensures rows { AreRowsLeft self.old self.new }
        ensures listed { IsListed (S.state shelf.old).files self.old
            → IsListed (S.state shelf.new).files self.new }
        ensures shelf { Counts (is_shelfs_fault result ≡ true)
            (S.state shelf.old).faults (S.state shelf.new).faults }
        ensures keeper { is_keepers_fault result ≡ false }
    {
        if let Err(refusal) = self.may_drop(name) {
            return Err(answer_of_refusal(refusal));
        }
        self.check_files(name)?;
        let Ok(()) = reserve_name(&mut self.names) else {
            return Err(Answer::NoMemory);
        };
        if let Err(fault) = shelf.put(self.desk.alloc, name, job.text(), part) {
            return Err(answer_of_shelf_fault(fault));
        }
        let _ = self.desk.session.drop_file(name);
        add_name(&mut self.names, name);
        Ok(())
    }

    // Refuses a new file if there are 1,000.
    fn check_files(&self, name: &Name) -> Result<(), Answer>
        ensures { MatchResult result
            (λ _. has_file_room name.now (known_of self.now) ≡ true)
            (λ full. (has_file_room name.now (known_of self.now) ≡ false)
            × (full ≡ answer.Full (shown_count (length self.now.names.items)))) }
    {
        let held = self.names.len();
        if !self.holds(name) && held >= MOST_FILES {
            return Err(Answer::Full {
                count: held.min(u32::MAX as usize) as u32,
            });
        }
        Ok(())
    }

    // Whether a stored file is to be selected and printed: it is asked for, and user, desk and limits permit it.
    fn wanted(&self, user: &UserRow, job: &Job, asked: Wanted) -> Wanted
        ensures select { result.select
            ≡ is_selected user.now asked.select asked.print (known_of self.now) }
        ensures print { (name : List ℕ) → result.print
            ≡ is_printed user.now asked.print (named_file name job.now) (known_of self.now) }
    {
        Wanted {
            select: (asked.select || asked.print)
                && self.policy.allowed(user, Permission::FilesSelect)
                && may_select(self.desk.session.desk().state()),
            print: asked.print
                && self.policy.allowed(user, Permission::Print)
                && self.desk.session.desk().state() == State::Operational
                && is_cool(job, self.desk.session.desk().limits())
                && self.has_room(),
        }
    }

    // What a user's start of a stored file would be refused for, if it is refused.
    fn print_refusal(&self, user: &UserRow, job: &Job) -> PrintRefusal
        ensures { (name : List ℕ) → result
            ≡ print_refusal user.now (named_file name job.now) (known_of self.now) }
    {
        if !self.policy.allowed(user, Permission::FilesSelect) {
            return PrintRefusal::Denied {
                permission: Permission::FilesSelect,
            };
        }
        if !self.policy.allowed(user, Permission::Print) {
            return PrintRefusal::Denied {
                permission: Permission::Print,
            };
        }
        let state = self.desk.session.desk().state();
        if state != State::Operational {
            return PrintRefusal::WrongState { state };
        }
        match first_hot(job, self.desk.session.desk().limits()) {
            Some(hot) => PrintRefusal::TooHotLine {
                line: hot.line,
                asked: hot.asked,
                limit: hot.limit,
            },
            None => PrintRefusal::Full {
                count: self.tables.count().min(u32::MAX as usize) as u32,
            },
        }
    }

    // The same if a print is asked for and isn't granted.
    fn refusal_of(
        &self,
        user: &UserRow,
        job: &Job,
        asked: Wanted,
        granted: Wanted,
    ) -> Option<PrintRefusal>
        ensures { (name : List ℕ)
            → granted.select ≡ is_selected user.now asked.select asked.print (known_of self.now)
            → granted.print
            ≡ is_printed user.now asked.print (named_file name job.now) (known_of self.now)
            → result ≡ refusal_of user.now asked.select asked.print
            (named_file name job.now) (known_of self.now) }
    {
        if asked.print && !(granted.select && granted.print) {
            return Some(self.print_refusal(user, job));
        }
        None
    }

    // Whether there is room for one more record of a print.
    fn has_room(&self) -> bool
        ensures { result ≡ has_room (known_of self.now) }
    {
        match self.tables.check_room() {
            Ok(()) => true,
            Err(_) => false,
        }
    }

    // Starts a print of a stored and selected file; a fault says that it is stored.
    fn print_stored<K: Keeper>(
        &mut self,
        keeper: &mut K,
        user: &Name,
        name: &Name,
        commands: usize,
    ) -> Answer
        requires start { IsStartable name.now commands (known_of self.old) }
        requires few { commands ≤ most_bytes }
        ensures done { Answers (begins (answer.Uploaded name.now true true)
            (start_deed user.now self.old.desk.session.desk.file
            (Start (next_print_number (known_of self.old)) ∷ [])
            (known_of self.old)) name.now) result self.old self.new }
        ensures plain { is_fault result ≡ false }
        ensures rest { KeeperDone (K.state keeper.old) (K.state keeper.new)
            result self.old self.new }
    {
        let row = self.tables.next_row(user, name, commands);
        let number = row.number;
        if let Err(fault) = self.tables.begin_print(keeper, None, row, None) {
            return Answer::Stored {
                name: name.copy(),
                cause: cause_of(fault),
            };
        }
        let _ = self.desk.session.start(number);
        Answer::Uploaded {
            name: name.copy(),
            select: true,
            print: true,
        }
    }
}

// The answer to an upload that isn't printed.
fn unprinted(name: &Name, select: bool, refusal: Option<PrintRefusal>) -> Answer
    ensures { result ≡ unprinted name.now select refusal }
{
    match refusal {
        Some(refusal) => Answer::Unprinted {
            name: name.copy(),
            select,
            refusal,
        },
        None => Answer::Uploaded {
            name: name.copy(),
            select,
            print: false,
        },
    }
}

// Whether no command of a job is too hot.
fn is_cool(job: &Job, limits: &Limits) -> bool
    ensures { result ≡ is_none (first_hot_of limits.now job.now.commands) }
{
    match first_hot(job, limits) {
        Some(_) => false,
        None => true,
    }
}

// Why the print of a stored file was not started.
fn cause_of(fault: KeeperFault) -> StoredCause
    ensures { result ≡ cause_of fault }
{
    match fault {
        KeeperFault::Failed => StoredCause::KeeperFault,
        KeeperFault::NoMemory => StoredCause::NoMemory,
    }
}
