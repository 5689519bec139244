//! A file read, and printed over a link.
ghost use Rattle.std.specs.Prelude.{◌≡◌, ◌≢◌, ◌↔◌, ◌⊎◌, ℕ, List, length, codes, false, None, Ok, Err, IfOk, IfErr};
ghost use Rattle.std.specs.Option.{option_map};
ghost use Rattle.octo_outside.specs.Recorded.{Counts};
ghost use Rattle.gcode_lines.specs.Job.{JobData};
ghost use Rattle.temp_rules.specs.Hot.{first_hot_of};
ghost use Rattle.send_window.specs.declared.session_end.SessionEnd.TheVariants.{NoAnswer};
ghost use Rattle.printer_link.specs.Link.{RoseBy};
ghost use Rattle.printer_link.specs.Suits.{SuitsAs};
ghost use Rattle.octo_session_print.specs.Waiting.{HasWaited};
ghost use Rattle.octo_session_print.specs.declared.end.PrintEnd.TheVariants as end;
ghost use Rattle.octo_settings.specs.Sound.{IsSettings};
ghost use Rattle.octo_settings.specs.declared.settings.Settings.{Settings};
ghost use Rattle.octo_files.specs.declared.report.Report.TheVariants as report;
ghost use Rattle.octo_commands_print.specs.Printing.{IsFilePrint, IsRefused, IsRun, UseSettings, WaitedBySettings, seen_of, over_port, print_end_report, settings_for, uses_link};

use byte_text::Name;
use gcode_lines::Job;
use octo_files::{Report, read_job, read_settings_of};
use octo_outside::{Clock, Source};
use octo_session_print::{PrintEnd, run_print};
use octo_settings::Settings;
use printer_link::Link;
use std::alloc::{AllocError, Global};
use temp_rules::HotLine;

// The name that the file has at the desk.
fn file_name() -> Name
    ensures { result ≡ codes "file" }
{
    Name::of_short("file")
}

// How an end of a print over this port is reported, of a job with these numbers of commands and skipped lines.
fn report_of(end: PrintEnd, port: &Name, commands: u32, skipped: u32) -> Report
    ensures { (job : JobData) → commands ≡ length job.commands → skipped ≡ job.skipped
        → result ≡ print_end_report end port.now job }
{
    match end {
        PrintEnd::Done => Report::Printed { commands, skipped },
        PrintEnd::TooHot { line, asked, limit } => Report::TooHot(HotLine { line, asked, limit }),
        PrintEnd::NoPort => Report::NoPort { port: port.copy() },
        PrintEnd::LinkFailed => Report::LinkFailed,
        PrintEnd::Ended(end) => Report::Ended(end),
        PrintEnd::TurnsUsed { turns } => Report::TurnsUsed { turns },
    }
}

// Prints a job over the port of that name, by the settings.
fn print_job<L: Link, T: Clock>(
    alloc: Global,
    link: &mut L,
    clock: &mut T,
    port: &Name,
    job: Job,
    settings: Settings,
    turns: u64,
) -> Report
    requires down { (L.state link.old).up ≡ false }
    requires suits { SuitsAs settings.numbered_oks (L.state link.old).past
        (L.state link.old).kind.oks }
    requires sound { IsSettings settings }
    requires cool { first_hot_of settings.limits job.commands ≡ None }

    // The result.
    ensures run { IsRefused (seen_of (L.state link.old).past (L.state link.new).past
        (L.state link.old).faults (L.state link.new).faults (T.moment clock.new)) result
        report.NoMemory
        ⊎ IsRun (L.state link.old).kind settings job (over_port port.now turns)
        (seen_of (L.state link.old).past (L.state link.new).past
        (L.state link.old).faults (L.state link.new).faults (T.moment clock.new)) result }

    // The link.
    ensures down { (L.state link.new).up ≡ false }
    ensures kind { (L.state link.new).kind ≡ (L.state link.old).kind }
    ensures counts { Counts (result ≡ report.LinkFailed) (L.state link.old).faults
        (L.state link.new).faults }
    ensures used { (made : ℕ) → result ≡ report.TurnsUsed made
        → RoseBy turns (L.state link.old).calls (L.state link.new).calls }
    ensures source { result ≢ report.SourceFailed }

    ensures untouched { uses_link result ≡ false
        → (link.new ≡ link.old) × (clock.new ≡ clock.old) }

    // The clock.
    ensures waited { (count : ℕ) → result ≡ report.Ended (NoAnswer count)
        → HasWaited (end.Ended (NoAnswer count)) (T.moment clock.old) settings.limit_ms
        (T.moment clock.new) }
{
    let commands = job.count() as u32;
    let skipped = job.skipped();
    match settings.session(alloc) {
        Ok(mut session) => {
            let end = run_print(&mut session, link, clock, port, &file_name(), job, turns);
            report_of(end, port, commands, skipped)
        }
        Err(AllocError) => Report::NoMemory,
    }
}

// The settings of a print. If it is to be sure, `ok`s have numbers, whatever the settings say.
fn settings_for(settings: Settings, sure: bool) -> Result<Settings, Report>
    requires { IsSettings settings }
    ensures exact { result ≡ settings_for sure settings }
    ensures sound { IfOk result IsSettings }
    ensures source { result ≢ Err report.SourceFailed }
    ensures refused { IfErr result (λ r. uses_link r ≡ false) }
{
    let mut settings = settings;
    if sure && let Err(fault) = settings.set_numbered() {
        return Err(Report::BadSettings(fault));
    }
    Ok(settings)
}

/// Prints the file of that name over the port of that name, in at most this number of turns, by the settings in the file
/// named for them, or by the defaults. If it is to be `sure`, the printer's `ok`s have numbers, whatever the settings say.
/// Settings and file are read before anything is sent.
pub fn print_file<F: Source, L: Link, T: Clock>(
    alloc: Global,
    files: &mut F,
    link: &mut L,
    clock: &mut T,
    port: &Name,
    file: &str,
    turns: u64,
    settings: Option<&str>,
    sure: bool,
) -> Report
    requires down { (L.state link.old).up ≡ false }
    requires suits { (used : Settings)
        → UseSettings (F.files files.old) (option_map (λ s. s.now) settings) sure (Ok used)
        → SuitsAs used.numbered_oks (L.state link.old).past (L.state link.old).kind.oks }

    // The result.
    ensures print { IsFilePrint (L.state link.old).kind (F.files files.old)
        (option_map (λ s. s.now) settings.entry) sure file.now (over_port port.now turns)
        (seen_of (L.state link.old).past (L.state link.new).past
        (L.state link.old).faults (L.state link.new).faults (T.moment clock.new)) result }

    // The source.
    ensures files { F.files files.new ≡ F.files files.old }
    ensures source { Counts (result ≡ report.SourceFailed)
        (F.faults files.old) (F.faults files.new) }

    // The link.
    ensures down { (L.state link.new).up ≡ false }
    ensures kind { (L.state link.new).kind ≡ (L.state link.old).kind }
    ensures link { Counts (result ≡ report.LinkFailed) (L.state link.old).faults
        (L.state link.new).faults }
    ensures used { (made : ℕ) → result ≡ report.TurnsUsed made
        → RoseBy turns (L.state link.old).calls (L.state link.new).calls }

    // If the report comes before a dial, link and clock are as they were.
    ensures untouched { uses_link result ≡ false
        → (link.new ≡ link.old) × (clock.new ≡ clock.old) }

    // The clock.
    ensures waited { (count : ℕ) → result ≡ report.Ended (NoAnswer count)
        → WaitedBySettings (F.files files.old) (option_map (λ s. s.now) settings.entry) sure
        count (T.moment clock.old) (T.moment clock.new) }
{
    let settings = match read_settings_of(alloc, files, settings) {
        Ok(settings) => settings,
        Err(report) => return report,
    };
    let settings = match settings_for(settings, sure) {
        Ok(settings) => settings,
        Err(report) => return report,
    };
    match read_job(alloc, files, file, &settings.limits) {
        Ok(job) => print_job(alloc, link, clock, port, job, settings, turns),
        Err(report) => report,
    }
}
