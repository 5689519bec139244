//! The commands of an entry's file.
ghost use Rattle.std.specs.Prelude.{◌≡◌, List, None, Some, IfOk, IfSome};
ghost use Rattle.octo_keeper.specs.declared.shelf.ShelfFile.{ShelfFile};
ghost use Rattle.temp_rules.specs.Hot.{first_hot_of};
ghost use Rattle.octo_floor_bay.specs.Faults.{AsksShelf};
ghost use Rattle.octo_floor_bay.specs.Files.{printable, unless_hot};

use crate::end::FloorFault;
use byte_text::Name;
use gcode_lines::Job;
use job_desk::Limits;
use octo_asks::Answer;
use octo_house_tables::read_job;
use octo_keeper::Shelf;
use std::alloc::Global;
use temp_rules::first_hot;

// A job, unless one of its commands is too hot.
fn unless_hot(job: Job, limits: &Limits) -> Option<Job>
    ensures { result ≡ unless_hot (first_hot_of limits.now job.commands) job }
{
    match first_hot(&job, limits) {
        Some(_) => None,
        None => Some(job),
    }
}

/// The commands of a file that can be printed; `None` if the file is missing, refused or too hot.
pub fn read_entry<S: Shelf>(
    alloc: Global,
    shelf: &mut S,
    file: &Name,
    limits: &Limits,
) -> Result<Option<Job>, FloorFault>
    ensures read { (files : List ShelfFile) → (S.state shelf.old).files ≡ Some files
        → IfOk result (λ found. found ≡ printable limits.now file.now files) }
    ensures some { IfOk result (λ found. (files : List ShelfFile)
        × (found ≡ printable limits.now file.now files)) }
    ensures cool { IfOk result (λ found. IfSome found
        (λ job. first_hot_of limits.now job.commands ≡ None)) }
    ensures stays { (S.state shelf.new).files ≡ (S.state shelf.old).files }
    ensures faults { AsksShelf result (S.state shelf.old).faults (S.state shelf.new).faults }
{
    match read_job(alloc, shelf, file) {
        Ok(job) => Ok(unless_hot(job, limits)),
        Err(Answer::ShelfFault) => Err(FloorFault::ShelfFailed),
        Err(Answer::NoMemory) => Err(FloorFault::NoMemory),
        Err(_) => Ok(None),
    }
}
