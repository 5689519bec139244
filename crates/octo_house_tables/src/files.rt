//! The bytes, the size and the job of a file that a shelf holds.
ghost use Rattle.std.specs.Prelude.{◌≡◌, ◌⊎◌, true, false, List, Some, IfErr};
ghost use Rattle.gcode_lines.specs.declared.fault.FileFault.{FileFault};
ghost use Rattle.octo_asks.specs.declared.answer.Answer.TheVariants as answer;
ghost use Rattle.octo_keeper.specs.declared.shelf.ShelfFile.{ShelfFile};
ghost use Rattle.octo_outside.specs.Recorded.{Counts};
ghost use Rattle.octo_house_tables.specs.Reading.{IsReadAs, IsReadOfSome, bytes_at, size_at, job_at, answer_of_file_fault, is_keepers_fault, is_shelfs_fault};

use crate::refusals::answer_of_shelf_fault;
use byte_text::Name;
use gcode_lines::{FileFault, Job, take_commands};
use octo_asks::Answer;
use octo_keeper::{Fetched, Shelf};
use octo_outside::Blob;
use std::alloc::Global;

/// A file that has no job, as an answer.
pub fn bad_file(fault: FileFault) -> Answer
    ensures { result ≡ answer_of_file_fault fault }
{
    match fault {
        FileFault::NoMemory => Answer::NoMemory,
        fault => Answer::BadFile { fault },
    }
}

/// The bytes of a file that the shelf holds, or why there are none. If a stager has read them, what it fetched is given to the
/// shelf.
pub fn read_bytes<S: Shelf>(
    alloc: Global,
    shelf: &mut S,
    name: &Name,
    fetched: Option<Fetched>,
) -> Result<Blob, Answer>
    ensures read { (files : List ShelfFile) → (S.state shelf.old).files ≡ Some files
        → IsReadAs (bytes_at name.now files) result }
    ensures some { IsReadOfSome (bytes_at name.now) result }
    ensures missed { IfErr result (λ x. (x ≡ answer.NoFile)
        ⊎ (x ≡ answer.ShelfFault) ⊎ (x ≡ answer.NoMemory)) }
    ensures stays { (S.state shelf.new).files ≡ (S.state shelf.old).files }
    ensures shelf { Counts (is_shelfs_fault result ≡ true)
        (S.state shelf.old).faults (S.state shelf.new).faults }
    ensures keeper { is_keepers_fault result ≡ false }
{
    match shelf.get(alloc, name, fetched) {
        Ok(Some(bytes)) => Ok(bytes),
        Ok(None) => Err(Answer::NoFile),
        Err(fault) => Err(answer_of_shelf_fault(fault)),
    }
}

/// The size of a file that the shelf holds, in bytes, or why there is none.
pub fn read_size<S: Shelf>(shelf: &mut S, name: &Name) -> Result<u64, Answer>
    ensures read { (files : List ShelfFile) → (S.state shelf.old).files ≡ Some files
        → IsReadAs (size_at name.now files) result }
    ensures some { IsReadOfSome (size_at name.now) result }
    ensures missed { IfErr result (λ x. (x ≡ answer.NoFile)
        ⊎ (x ≡ answer.ShelfFault) ⊎ (x ≡ answer.NoMemory)) }
    ensures stays { (S.state shelf.new).files ≡ (S.state shelf.old).files }
    ensures shelf { Counts (is_shelfs_fault result ≡ true)
        (S.state shelf.old).faults (S.state shelf.new).faults }
    ensures keeper { is_keepers_fault result ≡ false }
{
    match shelf.size(name) {
        Ok(Some(size)) => Ok(size),
        Ok(None) => Err(Answer::NoFile),
        Err(fault) => Err(answer_of_shelf_fault(fault)),
    }
}

/// The job of a file that the shelf holds, or why there is none.
pub fn read_job<S: Shelf>(alloc: Global, shelf: &mut S, name: &Name) -> Result<Job, Answer>
    ensures read { (files : List ShelfFile) → (S.state shelf.old).files ≡ Some files
        → IsReadAs (job_at name.now files) result }
    ensures some { IsReadOfSome (job_at name.now) result }
    ensures missed { IfErr result (λ x. (x ≡ answer.NoFile)
        ⊎ (x ≡ answer.ShelfFault) ⊎ (x ≡ answer.NoMemory)
        ⊎ ((bad : FileFault) × (x ≡ answer.BadFile bad))) }
    ensures stays { (S.state shelf.new).files ≡ (S.state shelf.old).files }
    ensures shelf { Counts (is_shelfs_fault result ≡ true)
        (S.state shelf.old).faults (S.state shelf.new).faults }
    ensures keeper { is_keepers_fault result ≡ false }
{
    let bytes = read_bytes(alloc, shelf, name, None)?;
    match take_commands(alloc, bytes) {
        Ok(job) => Ok(job),
        Err(fault) => Err(bad_file(fault)),
    }
}
