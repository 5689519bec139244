//! How far a print is, and whether it may begin.
ghost use Rattle.std.specs.Prelude.{◌≡◌, ℕ, length};
ghost use Rattle.job_desk.specs.Data.{Data};
ghost use Rattle.job_desk.specs.Table.{start_checked};
ghost use Rattle.temp_rules.specs.Hot.{first_hot_of};
ghost use Rattle.octo_house_rules.specs.Reads.{completion, place_after};

use gcode_lines::Job;
use job_desk::{Limits, Refusal};
use octo_asks::Progress;
use temp_rules::first_hot;

// Issued commands in percent, rounded down; an empty file is complete.
fn completion(issued: usize, job: &Job) -> u8
    ensures { result ≡ completion issued (length job.now.commands) }
{
    let count = job.count();
    if count == 0 {
        return 100;
    }
    (issued.min(count) * 100 / count) as u8
}

// The place of the next command in bytes, the file's size if all were issued.
fn place_after(issued: usize, job: &Job) -> u32
    ensures { result ≡ place_after issued job.now }
{
    if issued < job.count() {
        return job.place(issued);
    }
    job.bytes()
}

/// How far a print is of which this number of commands was issued.
pub fn progress(issued: usize, job: &Job) -> Progress
    ensures { result ≡ record {
      completion = completion issued (length job.now.commands);
      place = place_after issued job.now;
    } }
{
    Progress {
        completion: completion(issued, job),
        place: place_after(issued, job),
    }
}

/// Refuses a job with a command that is too hot, as `TooHotLine`.
pub fn check_job(job: &Job, limits: &Limits) -> Result<(), Refusal>
    ensures { (print : ℕ) (d : Data)
        → result ≡ (start_checked (first_hot_of limits.now job.now.commands) print d).0 }
{
    match first_hot(job, limits) {
        Some(hot) => Err(Refusal::TooHotLine {
            line: hot.line,
            asked: hot.asked,
            limit: hot.limit,
        }),
        None => Ok(()),
    }
}
