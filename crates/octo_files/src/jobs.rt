//! A file read into the job of its commands.
ghost use Rattle.std.specs.Prelude.{◌≡◌, ◌≢◌, ◌⊎◌, Err, IfErr, IfOk, None, true};
ghost use Rattle.octo_outside.specs.Recorded.{Counts};
ghost use Rattle.gcode_lines.specs.Commands.{job_of};
ghost use Rattle.octo_files.specs.declared.report.Report.TheVariants as report;
ghost use Rattle.temp_rules.specs.Hot.{first_hot_of};
ghost use Rattle.octo_files.specs.Jobs.{unless_hot, unless_refused, any_job_in, job_in, is_file_refusal, is_refusal};
ghost use Rattle.octo_files.specs.Reading.{FileGives, IsTroubled};

use crate::Report;
use gcode_lines::{FileFault, Job, MOST_FILE_BYTES, take_commands};
use octo_outside::{Blob, ReadAll, Source, read_all};
use std::alloc::Global;
use temp_rules::{Limits, first_hot};

// How many bytes a larger file is said to have, since no more is read of it: one more than the most.
const TOO_MANY: u64 = MOST_FILE_BYTES as u64 + 1;

// The job of bytes, which it keeps.
fn take_job(alloc: Global, bytes: Blob) -> Result<Job, Report>
    ensures exact { (result ≡ Err report.NoMemory) ⊎ (result ≡ unless_refused (job_of bytes)) }
    ensures refusal { IfErr result (λ r. is_file_refusal r ≡ true) }
    ensures source { result ≢ Err report.SourceFailed }
{
    match take_commands(alloc, bytes) {
        Ok(job) => Ok(job),
        Err(FileFault::NoMemory) => Err(Report::NoMemory),
        Err(fault) => Err(Report::BadFile(fault)),
    }
}

// The job of the file of that name, whatever temperatures it asks for.
pub(crate) fn read_any_job<F: Source>(
    alloc: Global,
    files: &mut F,
    name: &str,
) -> Result<Job, Report>
    // The result.
    ensures exact { IsTroubled result
        ⊎ FileGives (F.files files.old) name.now (λ bytes. result ≡ any_job_in bytes) }
    ensures refusal { IfErr result (λ r. is_file_refusal r ≡ true) }

    // The source.
    ensures files { F.files files.new ≡ F.files files.old }
    ensures counts { Counts (result ≡ Err report.SourceFailed)
        (F.faults files.old) (F.faults files.new) }
{
    match read_all(alloc, files, name, MOST_FILE_BYTES) {
        Ok(bytes) => take_job(alloc, bytes),
        Err(ReadAll::Failed) => Err(Report::SourceFailed),
        Err(ReadAll::TooLong) => Err(Report::BadFile(FileFault::TooLarge { bytes: TOO_MANY })),
        Err(ReadAll::NoMemory) => Err(Report::NoMemory),
    }
}

// A job, unless one of its commands is too hot.
fn within(limits: &Limits, job: Job) -> Result<Job, Report>
    ensures exact { result ≡ unless_hot job (first_hot_of limits.now job.commands) }
    ensures cool { IfOk result (λ job. first_hot_of limits.now job.commands ≡ None) }
    ensures refusal { IfErr result (λ r. is_refusal r ≡ true) }
    ensures source { result ≢ Err report.SourceFailed }
{
    match first_hot(&job, limits) {
        None => Ok(job),
        Some(hot) => Err(Report::TooHot(hot)),
    }
}

/// The job of the file of that name, or the report why there is none: the source fails, memory runs out, the file isn't one
/// (its first faulty line; over 67,108,864 bytes it is `TooLarge` with one byte more), or a command asks for more than its
/// heater's limit in degrees Celsius (the first one).
pub fn read_job<F: Source>(
    alloc: Global,
    files: &mut F,
    name: &str,
    limits: &Limits,
) -> Result<Job, Report>
    // The result.
    ensures exact { IsTroubled result
        ⊎ FileGives (F.files files.old) name.now (λ bytes. result ≡ job_in limits.now bytes) }
    ensures cool { IfOk result (λ job. first_hot_of limits.now job.commands ≡ None) }
    ensures refusal { IfErr result (λ r. is_refusal r ≡ true) }

    // The source.
    ensures files { F.files files.new ≡ F.files files.old }
    ensures counts { Counts (result ≡ Err report.SourceFailed)
        (F.faults files.old) (F.faults files.new) }
{
    match read_any_job(alloc, files, name) {
        Ok(job) => within(limits, job),
        Err(report) => Err(report),
    }
}
