//! Commands but `floor`, each carried out.
ghost use Rattle.std.specs.Prelude.{◌≡◌, ◌≢◌, ◌≤◌, List, ℕ, Some, false, None, is_some};
ghost use Rattle.std.specs.Option.{option_map};
ghost use Rattle.octo_outside.specs.Recorded.{Counts};
ghost use Rattle.octo_words.specs.Words.{IsInRange, command_of};
ghost use Rattle.octo_files.specs.Status.{code_of};
ghost use Rattle.octo_files.specs.declared.report.Report.TheVariants as report;
ghost use Rattle.octo_commands_print.specs.Printing.{seen_of, uses_link};
ghost use Rattle.octo_serve_command.specs.Hosting.{around};
ghost use Rattle.octo_serve_command.specs.Reports.{host_code};
ghost use Rattle.octo_commands.specs.Commands.{Comes, HasCauses, HasPlainCauses, HasWaitedFor, IsCheck, Reports, SessionsSuit, hosted_by};
ghost use Rattle.octo_commands.specs.Floors.{floor_asked};

use crate::demo::demo;
use octo_commands_print::print_file;
use octo_files::{Report, check_file, measure_file, read_settings_of, rest_of_file};
use octo_keeper::{Keeper, Shelf};
use octo_outside::{Clock, Sink, Source};
use octo_outside_doors::{Door, Doors};
use octo_serve_command::{HostEnd, HostReport, host};
use octo_words::{Command, FilePath, ReplyList};
use printer_link::Link;
use std::alloc::Global;
use std::sync::Wait;
use std::thread::Threads;

// The name of the settings' file, if one is named.
fn name_of_settings(settings: &Option<FilePath>) -> Option<&str>
    ensures { option_map (λ s. s.now) result ≡ settings.now }
{
    match settings {
        Some(path) => Some(path.as_str()),
        None => None,
    }
}

// The numbers of the replies that a demo loses, if they are listed.
fn numbers_of(lost: &Option<ReplyList>) -> Option<&[u64]>
    ensures { option_map (λ r. r.now) result ≡ lost.now }
{
    match lost {
        Some(replies) => Some(replies.as_slice()),
        None => None,
    }
}

// Checks a file by the limits of the settings.
fn check<F: Source>(
    alloc: Global,
    files: &mut F,
    file: &FilePath,
    settings: &Option<FilePath>,
) -> Report
    ensures check { IsCheck (F.files files.old) settings.now file.now result }
    ensures files { F.files files.new ≡ F.files files.old }
    ensures counts { Counts (result ≡ report.SourceFailed)
        (F.faults files.old) (F.faults files.new) }
{
    match read_settings_of(alloc, files, name_of_settings(settings)) {
        Ok(settings) => check_file(alloc, files, file.as_str(), &settings.limits),
        Err(report) => report,
    }
}

// The settings of a command that serves.
fn hosted_by(command: &Command) -> Option<&str>
    ensures { option_map (λ s. s.now) result ≡ hosted_by command.now }
{
    match command {
        Command::Serve { settings, .. } => Some(settings.as_str()),
        _ => None,
    }
}

// Carries out a command that neither serves nor runs a floor.
fn carry_out<F: Source, L: Link, T: Clock>(
    alloc: Global,
    command: &Command,
    files: &mut F,
    link: &mut L,
    clock: &mut T,
) -> Report
    requires down { (L.state link.old).up ≡ false }
    requires suits { SessionsSuit (F.files files.old) (L.state link.old).past
        (L.state link.old).kind.oks
        command.now }
    requires range { IsInRange command.now }
    requires plain { hosted_by command.now ≡ None }
    requires no_floor { floor_asked command.now ≡ None }
    ensures reports { Reports (L.state link.old).kind (F.files files.old)
        (seen_of (L.state link.old).past (L.state link.new).past
        (L.state link.old).faults (L.state link.new).faults (T.moment clock.new)) command.now
        result }
    ensures causes { HasPlainCauses (F.faults files.old) (F.faults files.new)
        (L.state link.old).faults (L.state link.new).faults (L.state link.old).calls
        (L.state link.new).calls result }
    ensures waited { HasWaitedFor (F.files files.old) (T.moment clock.old) (T.moment clock.new)
        command.now result }
    ensures output { code_of result ≢ 8 }
    ensures down { (L.state link.new).up ≡ false }
    ensures kind { (L.state link.new).kind ≡ (L.state link.old).kind }
    ensures recorded { is_some (L.state link.new).past ≡ is_some (L.state link.old).past }
    ensures files { F.files files.new ≡ F.files files.old }
    ensures counted { F.faults files.old ≤ F.faults files.new }
    ensures link_counted { (L.state link.old).faults ≤ (L.state link.new).faults }
    ensures untouched { uses_link result ≡ false
        → (link.new ≡ link.old) × (clock.new ≡ clock.old) }
{
    match command {
        Command::Print {
            port,
            file,
            turns,
            settings,
            sure,
        } => print_file(
            alloc,
            files,
            link,
            clock,
            port,
            file.as_str(),
            *turns,
            name_of_settings(settings),
            *sure,
        ),
        Command::Check { file, settings } => check(alloc, files, file, settings),
        Command::Demo {
            seed,
            commands,
            lost,
        } => demo(alloc, *seed, *commands, numbers_of(lost)),
        Command::Measure { file } => measure_file(alloc, files, file.as_str()),
        Command::Rest { file, command } => {
            rest_of_file(alloc, files, file.as_str(), *command as usize)
        }
        Command::Serve { .. } | Command::Floor { .. } => unreachable!(),
    }
}

// Carries out a command that runs no floor.
pub(crate) fn run<
    R: Threads + Wait + Clone + Send + Sync + Drop,
    F: Source,
    L: Link,
    T: Clock,
    K: Keeper,
    S: Shelf,
    D: Door + Send + Drop,
    G: Sink + Drop,
>(
    rt: &R,
    alloc: Global,
    command: &Command,
    files: &mut F,
    link: &mut L,
    clock: &mut T,
    keeper: &mut K,
    shelf: &mut S,
    doors: &mut Doors<D>,
    log: G,
) -> HostEnd
    requires down { (L.state link.old).up ≡ false }
    requires suits { SessionsSuit (F.files files.old) (L.state link.old).past
        (L.state link.old).kind.oks
        command.now }
    requires range { IsInRange command.now }
    requires no_floor { floor_asked command.now ≡ None }
    ensures comes { let at = around (L.state) T.moment
        (K.state) (S.state)
        (D.state) in
        (words : List (List ℕ)) → command_of words ≡ Some command.now
        → Comes words (F.files files.old)
        (at link.old clock.old keeper.old shelf.old doors.old)
        (at link.new clock.new keeper.new shelf.new doors.new)
        result.report result.history }
    ensures causes { let at = around (L.state) T.moment
        (K.state) (S.state)
        (D.state) in
        HasCauses (F.faults files.old) (F.faults files.new)
        (at link.old clock.old keeper.old shelf.old doors.old)
        (at link.new clock.new keeper.new shelf.new doors.new) result.report }
    ensures output { host_code result.report ≢ 8 }
    ensures down { (L.state link.new).up ≡ false }
    ensures kind { (L.state link.new).kind ≡ (L.state link.old).kind }
    ensures recorded { is_some (L.state link.new).past ≡ is_some (L.state link.old).past }
    ensures files { F.files files.new ≡ F.files files.old }
    ensures counted { F.faults files.old ≤ F.faults files.new }
{
    match hosted_by(command) {
        Some(settings) => host(
            rt, alloc, files, settings, link, clock, keeper, shelf, doors, log,
        ),
        None => {
            let report = carry_out(alloc, command, files, link, clock);
            HostEnd::unserved(HostReport::Command(report))
        }
    }
}
