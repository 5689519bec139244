//! The command `serve`: settings read, a host begun, and its doors served.
ghost use Rattle.std.specs.Prelude.{◌≡◌, None, Some, Ok, is_some, false, true};
ghost use Rattle.octo_files.specs.Settings.{HaveSettings, is_settings_refusal};
ghost use Rattle.octo_house.specs.declared.faults.BeginFault.TheVariants as fault;
ghost use Rattle.octo_outside.specs.Recorded.{Counts};
ghost use Rattle.octo_files.specs.declared.report.Report.{Report};
ghost use Rattle.octo_files.specs.declared.report.Report.TheVariants as report;
ghost use Rattle.octo_settings.specs.Sound.{IsSettings};
ghost use Rattle.octo_settings.specs.declared.settings.Settings.{Settings};
ghost use Rattle.octo_serve_command.specs.Hosting.{around, ServesBy, Hosts, HasHostCauses};
ghost use Rattle.octo_serve_command.specs.Reports.{begin_fault_report, served_report};
ghost use Rattle.octo_serve_command.specs.declared.report.HostReport.TheVariants as host;
ghost use Rattle.printer_link.specs.Suits.{SuitsAs};

use crate::beginning::{Begun, begin_by};
use crate::report::HostReport;
use octo_files::{Report, read_settings_of};
use octo_house::BeginFault;
use octo_keeper::{Keeper, Shelf};
use octo_outside::{Clock, Sink, Source};
use octo_outside_doors::{Door, Doors};
use octo_serve::{History, Served, serve};
use octo_settings::Settings;
use printer_link::Link;
use std::alloc::{AllocError, Global};
use std::sync::Wait;
use std::thread::Threads;

/// How a command ended, serving or another.
#[derive(Drop)]
pub struct HostEnd {
    /// What is reported.
    pub report: HostReport,
    /// What was asked, answered and noted, exactly if the host served.
    pub history: Option<History>,
}

impl HostEnd {
    /// The end of a command that didn't serve.
    pub fn unserved(report: HostReport) -> HostEnd
        ensures { result ≡ record { report = report; history = None } }
    {
        HostEnd {
            report,
            history: None,
        }
    }
}

// Why a host didn't begin.
fn begin_fault_report(fault: BeginFault) -> HostReport
    ensures { result ≡ begin_fault_report fault }
{
    match fault {
        BeginFault::KeeperFailed => HostReport::KeeperFailed,
        BeginFault::ShelfFailed => HostReport::ShelfFailed,
        BeginFault::NoMemory => HostReport::Command(Report::NoMemory),
    }
}

// What is reported of a host that has served.
fn served_report(calls: u64, doors_held: bool) -> HostReport
    ensures { result ≡ served_report calls doors_held }
{
    if doors_held {
        return HostReport::Served { calls };
    }
    HostReport::DoorFailed { calls }
}

// The host has served.
fn has_served(served: Served) -> HostEnd
    ensures report { result.report ≡ served_report served.calls served.doors_held }
    ensures history { result.history ≡ Some served.history }
{
    let Served {
        calls,
        doors_held,
        history,
    } = served;
    HostEnd {
        report: served_report(calls, doors_held),
        history: Some(history),
    }
}

// Serves by these settings.
fn serve_by<
    R: Threads + Wait + Clone + Send + Sync + Drop,
    L: Link,
    T: Clock,
    K: Keeper,
    S: Shelf,
    D: Door + Send + Drop,
    G: Sink + Drop,
>(
    rt: &R,
    alloc: Global,
    settings: Settings,
    link: &mut L,
    clock: &mut T,
    keeper: &mut K,
    shelf: &mut S,
    doors: &mut Doors<D>,
    log: G,
) -> HostEnd
    requires sound { IsSettings settings }
    requires down { (L.state link.old).up ≡ false }
    requires suits { SuitsAs settings.numbered_oks (L.state link.old).past
        (L.state link.old).kind.oks }

    ensures serves { let at = around (L.state) T.moment
        (K.state) (S.state)
        (D.state) in
        ServesBy settings (at link.old clock.old keeper.old shelf.old doors.old)
        (at link.new clock.new keeper.new shelf.new doors.new)
        result.report result.history }
    ensures causes { let at = around (L.state) T.moment
        (K.state) (S.state)
        (D.state) in
        HasHostCauses (at link.old clock.old keeper.old shelf.old doors.old)
        (at link.new clock.new keeper.new shelf.new doors.new)
        result.report }
    ensures refusal { (why : Report) → result.report ≡ host.Command why → why ≡ report.NoMemory }
    ensures down { (L.state link.new).up ≡ false }
    ensures kind { (L.state link.new).kind ≡ (L.state link.old).kind }
    ensures recorded { is_some (L.state link.new).past ≡ is_some (L.state link.old).past }
{
    let connects = settings.connect;
    let Begun { mut house, terms } = match begin_by(alloc, settings, keeper, shelf) {
        Ok(begun) => begun,
        Err(fault) => return HostEnd::unserved(begin_fault_report(fault)),
    };
    match serve(
        rt, alloc, &mut house, link, clock, keeper, shelf, doors, &terms, connects, log,
    ) {
        Ok(served) => has_served(served),
        Err(AllocError) => HostEnd::unserved(HostReport::Command(Report::NoMemory)),
    }
}

/// Serves at four doors by the settings of that file, on what the keeper and the shelf hold, over a link to the printer, until the
/// host is shut down, or all doors have ended or failed and no print is active.
///
/// The settings are read first, and refused as by any other command; then the tables and the files are. Memory can run out only
/// before a door or the link is touched. A session with the printer that ends doesn't end the host.
///
/// `log` gets the lines of the history, as `LoggedCounter` says. Nothing else depends on it.
pub fn host<
    R: Threads + Wait + Clone + Send + Sync + Drop,
    F: Source,
    L: Link,
    T: Clock,
    K: Keeper,
    S: Shelf,
    D: Door + Send + Drop,
    G: Sink + Drop,
>(
    rt: &R,
    alloc: Global,
    files: &mut F,
    settings: &str,
    link: &mut L,
    clock: &mut T,
    keeper: &mut K,
    shelf: &mut S,
    doors: &mut Doors<D>,
    log: G,
) -> HostEnd
    requires down { (L.state link.old).up ≡ false }
    requires suits { (s : Settings) → HaveSettings (F.files files.old) (Some settings.now) (Ok s)
        → SuitsAs s.numbered_oks (L.state link.old).past (L.state link.old).kind.oks }

    // What it comes to, and each failure by its cause.
    ensures hosts { let at = around (L.state) T.moment
        (K.state) (S.state)
        (D.state) in
        Hosts (F.files files.old) settings.now
        (at link.old clock.old keeper.old shelf.old doors.old)
        (at link.new clock.new keeper.new shelf.new doors.new)
        result.report result.history }
    ensures causes { let at = around (L.state) T.moment
        (K.state) (S.state)
        (D.state) in
        HasHostCauses (at link.old clock.old keeper.old shelf.old doors.old)
        (at link.new clock.new keeper.new shelf.new doors.new)
        result.report }

    ensures refusal { (why : Report) → result.report ≡ host.Command why
        → is_settings_refusal why ≡ true }

    // The link: it is down, what no call changes, and whether its history is recorded.
    ensures down { (L.state link.new).up ≡ false }
    ensures kind { (L.state link.new).kind ≡ (L.state link.old).kind }
    ensures recorded { is_some (L.state link.new).past ≡ is_some (L.state link.old).past }

    // The source, which is read before.
    ensures files { F.files files.new ≡ F.files files.old }
    ensures source { Counts (result.report ≡ host.Command report.SourceFailed)
        (F.faults files.old) (F.faults files.new) }
{
    match read_settings_of(alloc, files, Some(settings)) {
        Ok(settings) => serve_by(rt, alloc, settings, link, clock, keeper, shelf, doors, log),
        Err(report) => HostEnd::unserved(HostReport::Command(report)),
    }
}
