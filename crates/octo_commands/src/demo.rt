//! The command `demo`.
ghost use Rattle.std.specs.Prelude.{◌≡◌, ◌≤◌, ◌⊎◌, IfOk};
ghost use Rattle.std.specs.Option.{option_map};
ghost use Rattle.octo_commands_print.specs.declared.file.TheConstants.{MOST_COMMANDS};
ghost use Rattle.octo_files.specs.declared.report.Report.TheVariants as report;
ghost use Rattle.octo_commands.specs.Commands.{IsOther, IsSummary, status_of};

use octo_commands_print::{Demo, run_demo, summary};
use octo_files::{FILE_REFUSED, LINK_FAILED, Report, SESSION_ENDED, SUCCESS, TURNS_USED};
use octo_outside::{CallList, calls_of};
use octo_session_print::PrintEnd;
use std::alloc::{AllocError, Global};

// The exit status of a print that ended so.
fn status_of(end: PrintEnd) -> u8
    ensures value { result ≡ status_of end }
    ensures few { result ≤ 6 ⊎ (result ≡ 10) }
{
    match end {
        PrintEnd::Done => SUCCESS,
        PrintEnd::TooHot { .. } => FILE_REFUSED,
        PrintEnd::NoPort | PrintEnd::LinkFailed => LINK_FAILED,
        PrintEnd::Ended(_) => SESSION_ENDED,
        PrintEnd::TurnsUsed { .. } => TURNS_USED,
    }
}

// The replies that a demo loses, as its link takes them.
fn listed_replies(alloc: Global, lost: Option<&[u64]>) -> Result<Option<CallList>, AllocError>
    ensures { IfOk result (λ replies. replies ≡ option_map (λ r. r.now) lost.entry) }
{
    match lost {
        Some(numbers) => Ok(Some(calls_of(alloc, numbers)?)),
        None => Ok(None),
    }
}

// Runs a demo and sums it up.
fn summarize(
    alloc: Global,
    seed: u32,
    commands: u32,
    lost: Option<&[u64]>,
) -> Result<Report, AllocError>
    requires seed { seed ≤ 2147483647 }
    requires commands { commands ≤ MOST_COMMANDS }
    ensures summary { IfOk result (IsSummary seed commands (option_map (λ r. r.now) lost.entry)) }
    ensures other { IfOk result IsOther }
{
    let replies = listed_replies(alloc, lost)?;
    let demo = run_demo(alloc, seed, commands, replies)?;
    let counts = demo.counts()?;
    let status = status_of(demo.end);
    let text = summary(seed, commands, &counts, status);
    Ok(Report::Demo { text, status })
}

/// Prints a made-up file over a link in memory that loses and corrupts lines, and sums up what happened. With a list of replies the
/// printer's `ok`s have numbers, and those replies are lost too.
pub fn demo(alloc: Global, seed: u32, commands: u32, lost: Option<&[u64]>) -> Report
    requires seed { seed ≤ 2147483647 }
    requires commands { commands ≤ MOST_COMMANDS }
    ensures summary { (result ≡ report.NoMemory)
        ⊎ IsSummary seed commands (option_map (λ r. r.now) lost.entry) result }
    ensures other { IsOther result }
{
    match summarize(alloc, seed, commands, lost) {
        Ok(report) => report,
        Err(AllocError) => Report::NoMemory,
    }
}
