//! The requests that list, show and delete files.
ghost use Rattle.std.specs.Prelude.{◌≡◌, true, false};
ghost use Rattle.job_desk.specs.Table.{drop_file_step};
ghost use Rattle.octo_house_rules.specs.Reads.{list_files_verdict, get_file_verdict, download_verdict};
ghost use Rattle.octo_house_rules.specs.Access.{is_denied};
ghost use Rattle.octo_house_rules.specs.Uploads.{delete_verdict};
ghost use Rattle.octo_house.specs.Answered.{Answers, AnswersOn, AnswersOnSome, Shelves, ShelfDone};
ghost use Rattle.octo_outside.specs.Recorded.{Counts};
ghost use Rattle.octo_house_rules.specs.Faults.{is_keepers, is_shelfs};
ghost use Rattle.octo_house.specs.State.{AreRowsLeft, IsListed, known_of};

use super::House;
use byte_text::Name;
use job_desk::Refusal;
use octo_asks::{Answer, ShownFile};
use octo_house_tables::{
    answer_of_refusal, answer_of_shelf_fault, drop_name, read_bytes, read_size, shown_files,
};
use octo_keeper::{Fetched, Shelf};

impl House {
    // All files.
    pub(super) fn list_files<S: Shelf>(&self, shelf: &mut S) -> Answer
        ensures done { AnswersOn (S.state shelf.old).files list_files_verdict result self.now
            self.now }
        ensures some { AnswersOnSome list_files_verdict result self.now self.now }
        ensures granted { is_denied result ≡ false }
        ensures rest { ShelfDone (S.state shelf.old) (S.state shelf.new) result }
    {
        let files = match shelf.list(self.desk.alloc) {
            Ok(files) => files,
            Err(fault) => return answer_of_shelf_fault(fault),
        };
        match shown_files(self.desk.alloc, files.as_slice()) {
            Ok(files) => Answer::Files { files },
            Err(_) => Answer::NoMemory,
        }
    }

    // One file.
    pub(super) fn file<S: Shelf>(&self, shelf: &mut S, name: &Name) -> Answer
        ensures done { AnswersOn (S.state shelf.old).files
            (λ files. get_file_verdict name.now files (known_of self.now))
            result self.now self.now }
        ensures some { AnswersOnSome
            (λ files. get_file_verdict name.now files (known_of self.now))
            result self.now self.now }
        ensures granted { is_denied result ≡ false }
        ensures rest { ShelfDone (S.state shelf.old) (S.state shelf.new) result }
    {
        if !self.holds(name) {
            return Answer::NoFile;
        }
        match read_size(shelf, name) {
            Ok(size) => Answer::File {
                file: ShownFile {
                    name: name.copy(),
                    size,
                },
            },
            Err(answer) => answer,
        }
    }

    // The bytes of a file, which a stager may have read.
    pub(super) fn download<S: Shelf>(
        &self,
        shelf: &mut S,
        name: &Name,
        fetched: Option<Fetched>,
    ) -> Answer
        ensures done { AnswersOn (S.state shelf.old).files
            (λ files. download_verdict name.now files (known_of self.now))
            result self.now self.now }
        ensures some { AnswersOnSome
            (λ files. download_verdict name.now files (known_of self.now))
            result self.now self.now }
        ensures granted { is_denied result ≡ false }
        ensures rest { ShelfDone (S.state shelf.old) (S.state shelf.new) result }
    {
        if !self.holds(name) {
            return Answer::NoFile;
        }
        match read_bytes(self.desk.alloc, shelf, name, fetched) {
            Ok(bytes) => Answer::Download { bytes },
            Err(answer) => answer,
        }
    }

    // Whether the selection of a file may be dropped: it isn't being printed.
    pub(super) fn may_drop(&self, name: &Name) -> Result<(), Refusal>
        ensures { result ≡ (drop_file_step name.now self.now.desk.session.desk).0 }
    {
        let desk = self.desk.session.desk();
        let Some(selected) = desk.selected() else {
            return Ok(());
        };
        if selected.is(name) && desk.print().is_some() {
            return Err(Refusal::FileBusy);
        }
        Ok(())
    }

    // Deletes a file: the shelf first, and then what the host knows of it.
    pub(super) fn delete_file<S: Shelf>(&mut self, shelf: &mut S, name: &Name) -> Answer
        ensures done { Answers
            (delete_verdict name.now (known_of self.old)) result self.old self.new }
        ensures files { Shelves (S.state shelf.old).files (S.state shelf.new).files
            (λ _. delete_verdict name.now (known_of self.old)) result }
        ensures rows { AreRowsLeft self.old self.new }
        ensures listed { IsListed (S.state shelf.old).files self.old
            → IsListed (S.state shelf.new).files self.new }
        ensures shelf { Counts (is_shelfs result ≡ true) (S.state shelf.old).faults
            (S.state shelf.new).faults }
        ensures keeper { is_keepers result ≡ false }
    {
        if !self.holds(name) {
            return Answer::NoFile;
        }
        if let Err(refusal) = self.may_drop(name) {
            return answer_of_refusal(refusal);
        }
        if let Err(fault) = shelf.remove(self.desk.alloc, name) {
            return answer_of_shelf_fault(fault);
        }
        let _ = self.desk.session.drop_file(name);
        drop_name(&mut self.names, name);
        Answer::Accepted
    }
}
