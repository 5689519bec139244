//! The measure of a file, and its rest.
ghost use Rattle.std.specs.Prelude.{◌≡◌, ◌≢◌, ◌⊎◌, Ok, true};
ghost use Rattle.octo_outside.specs.Recorded.{Counts};
ghost use Rattle.gcode_lines.specs.Commands.{job_of};
ghost use Rattle.octo_files.specs.declared.report.Report.TheVariants as report;
ghost use Rattle.octo_files.specs.Measures.{job_measure_report, measure_report, is_measure, job_rest_report, is_rest, GoesOnFrom, IsRestReport};
ghost use Rattle.octo_files.specs.Reading.{FileGives, IsTrouble};

use crate::Report;
use crate::jobs::read_any_job;
use gcode_lines::Job;
use gcode_measure::{RestFault, measure, rest};
use octo_outside::Source;
use std::alloc::Global;

fn measure_job(job: &Job) -> Report
    ensures exact { result ≡ job_measure_report job.now }
    ensures kind { is_measure result ≡ true }
    ensures source { result ≢ report.SourceFailed }
{
    match measure(job) {
        Ok(measure) => Report::Measured(measure),
        Err(fault) => Report::BadMeasure(fault),
    }
}

/// Measures the file of that name, whatever temperatures it asks for: the filament that its moves feed and draw back, and
/// where they end. Refused is a file that `read_job` refuses for its lines, and its first command that sets inches or goes
/// too far.
pub fn measure_file<F: Source>(alloc: Global, files: &mut F, file: &str) -> Report
    // The result.
    ensures exact { IsTrouble result
        ⊎ FileGives (F.files files.old) file.now (λ bytes. result ≡ measure_report bytes) }
    ensures kind { is_measure result ≡ true }

    // The source.
    ensures files { F.files files.new ≡ F.files files.old }
    ensures counts { Counts (result ≡ report.SourceFailed)
        (F.faults files.old) (F.faults files.new) }
{
    match read_any_job(alloc, files, file) {
        Ok(job) => measure_job(&job),
        Err(report) => report,
    }
}

// The rest of a job as a file, from a command on.
fn rest_of_job(alloc: Global, job: &Job, from: usize) -> Report
    ensures exact { (result ≡ report.NoMemory) ⊎ (result ≡ job_rest_report from job.now) }
    ensures goes_on { GoesOnFrom job.now from result }
    ensures kind { is_rest result ≡ true }
    ensures source { result ≢ report.SourceFailed }
{
    match rest(alloc, job, from) {
        Ok(text) => Report::Rest(text),
        Err(RestFault::Measure(fault)) => Report::BadMeasure(fault),
        Err(RestFault::Past { count }) => Report::Past { count },
        Err(RestFault::NoMemory) => Report::NoMemory,
    }
}

/// The rest of the file of that name, from a command on, counted from 0, after a print that failed. It sets modes and
/// positions as the commands before leave them, and neither heats nor homes. Refused is what `measure_file` refuses
/// among these commands, and a command past the last one.
pub fn rest_of_file<F: Source>(alloc: Global, files: &mut F, file: &str, from: usize) -> Report
    // The result.
    ensures exact { IsTrouble result
        ⊎ FileGives (F.files files.old) file.now (λ bytes. IsRestReport from bytes result) }
    ensures kind { is_rest result ≡ true }

    // The source.
    ensures files { F.files files.new ≡ F.files files.old }
    ensures counts { Counts (result ≡ report.SourceFailed)
        (F.faults files.old) (F.faults files.new) }
{
    match read_any_job(alloc, files, file) {
        Ok(job) => rest_of_job(alloc, &job, from),
        Err(report) => report,
    }
}
