//! A check of a file.
ghost use Rattle.std.specs.Prelude.{◌≡◌, ◌≢◌, ◌⊎◌, ◌↔◌, ◌≤◌, true, IsTrue};
ghost use Rattle.octo_outside.specs.Recorded.{Counts};
ghost use Rattle.octo_files.specs.declared.report.Report.TheVariants as report;
ghost use Rattle.gcode_lines.specs.Job.{texts_of};
ghost use Rattle.temp_rules.specs.Hot.{first_hot_of};
ghost use Rattle.octo_files.specs.Checks.{targets_in, job_check_report, check_report, is_check};
ghost use Rattle.octo_files.specs.Jobs.{unless_hot, report_or_refusal};
ghost use Rattle.octo_files.specs.Reading.{FileGives, IsTrouble};

use crate::Report;
use crate::jobs::read_any_job;
use gcode_lines::Job;
use octo_outside::Source;
use std::alloc::Global;
use temp_rules::{Limits, Targets, first_hot};

// The greatest temperatures that a job asks for.
fn targets_of(job: &Job) -> Targets
    ensures { result ≡ targets_in (texts_of job.now) }
{
    let mut targets = Targets::new();
    for i in 0..job.count() {
        targets.see(job.get(i));
    }
    targets
}

// What a check finds of a job that asks for these temperatures at most.
fn counts_of(job: &Job, targets: &Targets) -> Report
    requires { targets.now ≡ targets_in (texts_of job.now) }
    ensures { result ≡ job_check_report job.now }
{
    Report::Checked {
        commands: job.count() as u32,
        skipped: job.skipped(),
        tool: targets.tool(),
        bed: targets.bed(),
    }
}

// Whether temperatures are within limits.
fn are_within(targets: &Targets, limits: &Limits) -> bool
    ensures { IsTrue result
        ↔ ((targets.now.tool ≤ limits.now.tool) × (targets.now.bed ≤ limits.now.bed)) }
{
    targets.tool() <= u64::from(limits.tool) && targets.bed() <= u64::from(limits.bed)
}

// What a check finds of a job: its commands are read once, and a second time only to find the first that is too hot.
#[tactic(auto, using(crate::proofs::Cool::cool_commands))]
fn check_job(job: &Job, limits: &Limits) -> Report
    ensures exact { result
        ≡ report_or_refusal job_check_report
        (unless_hot job.now (first_hot_of limits.now job.now.commands)) }
    ensures kind { is_check result ≡ true }
    ensures source { result ≢ report.SourceFailed }
{
    let targets = targets_of(job);
    if are_within(&targets, limits) {
        return counts_of(job, &targets);
    }
    match first_hot(job, limits) {
        None => counts_of(job, &targets),
        Some(hot) => Report::TooHot(hot),
    }
}

/// Checks the file of that name: how many commands it has, how many lines have none, and the greatest temperatures that it
/// asks for; refuses what `read_job` refuses.
pub fn check_file<F: Source>(alloc: Global, files: &mut F, file: &str, limits: &Limits) -> Report
    // The result.
    ensures exact { IsTrouble result
        ⊎ FileGives (F.files files.old) file.now (λ bytes. result ≡ check_report limits.now bytes) }
    ensures kind { is_check result ≡ true }

    // The source.
    ensures files { F.files files.new ≡ F.files files.old }
    ensures counts { Counts (result ≡ report.SourceFailed)
        (F.faults files.old) (F.faults files.new) }
{
    match read_any_job(alloc, files, file) {
        Ok(job) => check_job(&job, limits),
        Err(report) => report,
    }
}
