//! The commands of the print host.
ghost use Rattle.std.specs.Prelude.{◌≡◌, ◌≢◌, ◌⊎◌, ◌≤◌, false, None, Some, Ok, is_some, List, ℕ};
ghost use Rattle.std.specs.Option.{option_map};
ghost use Rattle.octo_outside.specs.Recorded.{Counts, Steady};
ghost use Rattle.octo_commands_print.specs.Printing.{seen_of};
ghost use Rattle.octo_floor.specs.Links.{link_states};
ghost use Rattle.octo_floor_command.specs.Beginning.{around as around_floor};
ghost use Rattle.octo_floor_command.specs.Links.{EachLink};
ghost use Rattle.octo_floor_command.specs.Reports.{floor_report_code};
ghost use Rattle.octo_floor_command.specs.Settings.{HaveFloorSettings};
ghost use Rattle.octo_floor_command.specs.declared.report.FloorReport.{FloorReport};
ghost use Rattle.octo_settings.specs.declared.floor.FloorSettings.{FloorSettings};
ghost use Rattle.octo_floor.specs.Objects.{store_state};
ghost use Rattle.octo_serve_command.specs.Hosting.{around};
ghost use Rattle.octo_serve_command.specs.Reports.{host_code};
ghost use Rattle.octo_serve_command.specs.declared.report.HostReport.{HostReport};
ghost use Rattle.printer_link.specs.Suits.{SuitsAs};
ghost use Rattle.octo_commands.specs.Commands.{Comes, HasCauses, IsWritten, AskedSuits, words_fault_report};
ghost use Rattle.octo_commands.specs.Enough.{HasEnough};
ghost use Rattle.octo_commands.specs.Floors.{FloorComes, HasAllFloorCauses, IsFloorWritten, floor_asked, floor_in_words};

use crate::carrying::run;
use octo_files::Report;
use octo_floor::{Floor, Links};
use octo_floor_command::{FloorDone, FloorLog, run_floor, write_floor_report};
use octo_keeper::{Keeper, Shelf};
use octo_outside::{Clock, Failed, Sink, Source, WordList};
use octo_outside_doors::{Door, Doors};
use octo_serve::History;
use octo_serve_command::{HostEnd, HostReport, write_host_report};
use octo_words::{Command, WordsFault, read_words};
use printer_link::Link;
use std::alloc::Global;
use std::sync::Wait;
use std::thread::Threads;

/// How a command ended.
#[derive(Drop)]
pub struct Status {
    /// The exit status of the program.
    pub code: u8,
    /// What was asked, answered and noted, exactly if a host served.
    pub history: Option<History>,
    /// The floor, exactly if one ran.
    pub floor: Option<Floor>,
}

// Why the arguments are no command.
fn words_fault_end(fault: WordsFault) -> HostEnd
    ensures { result ≡ record { report = words_fault_report fault; history = None } }
{
    HostEnd::unserved(HostReport::Command(match fault {
        WordsFault::BadWords => Report::BadWords,
        WordsFault::NoMemory => Report::NoMemory,
    }))
}

// Writes how a command ended that ran no floor.
fn end_host<O: Sink>(out: &mut O, end: HostEnd) -> Status
    requires { host_code end.report ≢ 8 }
    ensures written { IsWritten end.report result.code (O.written out.old) (O.written out.new) }
    ensures history { result.history ≡ end.history }
    ensures floor { result.floor ≡ None }
    ensures sink { Counts (result.code ≡ 8) (O.faults out.old) (O.faults out.new) }
{
    let HostEnd { report, history } = end;
    let code = match write_host_report(out, &report) {
        Ok(()) => report.code(),
        Err(Failed) => 8,
    };
    Status {
        code,
        history,
        floor: None,
    }
}

// Writes how a floor ended.
fn end_floor<O: Sink>(out: &mut O, done: FloorDone) -> Status
    requires { floor_report_code done.report ≢ 8 }
    ensures written { IsFloorWritten done.report result.code
        (O.written out.old) (O.written out.new) }
    ensures history { result.history ≡ None }
    ensures floor { result.floor ≡ done.floor }
    ensures sink { Counts (result.code ≡ 8) (O.faults out.old) (O.faults out.new) }
{
    let FloorDone { report, floor } = done;
    let code = report.code();
    let code = match write_floor_report(out, &report) {
        Ok(()) => code,
        Err(Failed) => 8,
    };
    Status {
        code,
        history: None,
        floor,
    }
}

// The settings and the turns of a command that runs a floor.
fn floor_asked(command: &Command) -> Option<(&str, u64)>
    ensures { option_map (λ asked. (asked.0.now, asked.1)) result ≡ floor_asked command.now }
{
    match command {
        Command::Floor {
            settings,
            turns,
            ..
        } => Some((settings.as_str(), *turns)),
        _ => None,
    }
}

/// Carries out the command that the arguments are, without the program's name, and writes its report to `out`: `print`, `sure`,
/// `check`, `demo`, `measure`, `rest`, `serve` or `floor`, as `octo_words` reads them. The status is the report's, or 8 if the output
/// failed.
///
/// A link that records its history has to suit the settings of a command that prints or serves: it loses no reply, or the printer's
/// `ok`s have numbers and the settings, or `sure`, say so.
///
/// Only `serve` and `floor` use the keeper, the shelf and the log, which gets the lines of a host's history or of a floor's events;
/// only `serve` uses the doors, and only `floor` the links, of which printer 0 has the first. The caller has made them of the
/// database, the folder, the address and the ports that the arguments and the settings name. `serve` waits for connections, and may
/// never end; every other command returns.
pub fn octo<
    R: Threads + Wait + Clone + Send + Sync + Drop,
    F: Source,
    L: Link + Drop,
    O: Sink,
    T: Clock,
    K: Keeper,
    S: Shelf,
    D: Door + Send + Drop,
    G: Sink + Drop,
>(
    rt: &R,
    alloc: Global,
    words: &WordList,
    files: &mut F,
    link: &mut L,
    out: &mut O,
    clock: &mut T,
    keeper: &mut K,
    shelf: &mut S,
    doors: &mut Doors<D>,
    log: G,
    links: &mut Links<L>,
) -> Status
    requires down { (L.state link.old).up ≡ false }
    requires suits { AskedSuits words.now (F.files files.old) (L.state link.old).past
        (L.state link.old).kind.oks }
    requires links_down { EachLink (λ l. (L.state l).up ≡ false) links.old }
    requires links_suit { (asked : List ℕ × ℕ) → floor_in_words words.now ≡ Some asked
        → (s : FloorSettings) → HaveFloorSettings (F.files files.old) asked.0 (Ok s)
        → EachLink (λ l. SuitsAs s.settings.numbered_oks (L.state l).past (L.state l).kind.oks)
        links.old }

    // Arguments that ask for no floor come to a report `r`, and each failure in it has its cause. It is written, or the output
    // failed. `at` is what link, clock, keeper, shelf and doors show.
    ensures comes { let at = around (L.state) T.moment
        (K.state) (S.state)
        (D.state) in
        floor_in_words words.now ≡ None
        → (r : HostReport) × Comes words.now (F.files files.old)
        (at link.old clock.old keeper.old shelf.old doors.old)
        (at link.new clock.new keeper.new shelf.new doors.new) r result.history
        × HasCauses (F.faults files.old) (F.faults files.new)
        (at link.old clock.old keeper.old shelf.old doors.old)
        (at link.new clock.new keeper.new shelf.new doors.new) r
        × IsWritten r result.code (O.written out.old) (O.written out.new) }
    ensures no_floor { floor_in_words words.now ≡ None
        → (links.new ≡ links.old) × (result.floor ≡ None) }

    // Those that ask for a floor come to one, as theorem Floor says of its printers, links, tables and files, or to a report before.
    // `at` is what links, keeper and shelf show.
    ensures floors { (asked : List ℕ × ℕ) → floor_in_words words.now ≡ Some asked
        → (r : FloorReport) × FloorComes (F.files files.old) asked
        (around_floor (link_states L.state links.old)
        (store_state (K.state keeper.old) (S.state shelf.old)))
        (around_floor (link_states L.state links.new)
        (store_state (K.state keeper.new) (S.state shelf.new))) r result.floor
        × HasAllFloorCauses (F.faults files.old) (F.faults files.new)
        (around_floor (link_states L.state links.old)
        (store_state (K.state keeper.old) (S.state shelf.old)))
        (around_floor (link_states L.state links.new)
        (store_state (K.state keeper.new) (S.state shelf.new))) r
        × IsFloorWritten r result.code (O.written out.old) (O.written out.new) }
    ensures floor_alone { (asked : List ℕ × ℕ) → floor_in_words words.now ≡ Some asked
        → (link.new ≡ link.old) × (doors.new ≡ doors.old) × (result.history ≡ None) }

    // Over a prompt link a print that counts `ok`s, with 32 turns more than its plan has lines, is done, or memory runs out.
    ensures prompt { HasEnough words.now (L.state link.old).kind (F.files files.old)
        (seen_of (L.state link.old).past (L.state link.new).past
        (L.state link.old).faults (L.state link.new).faults (T.moment clock.new))
        → Steady (F.faults files.old) (F.faults files.new)
        → Steady (O.faults out.old) (O.faults out.new) → (result.code ≡ 0) ⊎ (result.code ≡ 11) }

    // The link is down again.
    ensures down { (L.state link.new).up ≡ false }

    // What stays, and counts.
    ensures kind { (L.state link.new).kind ≡ (L.state link.old).kind }
    ensures recorded { is_some (L.state link.new).past ≡ is_some (L.state link.old).past }
    ensures files { F.files files.new ≡ F.files files.old }
    ensures source_counted { F.faults files.old ≤ F.faults files.new }
    ensures link_counted { (L.state link.old).faults ≤ (L.state link.new).faults }
    ensures sink { Counts (result.code ≡ 8) (O.faults out.old) (O.faults out.new) }
{
    let command = match read_words(alloc, words) {
        Ok(command) => command,
        Err(fault) => return end_host(out, words_fault_end(fault)),
    };
    match floor_asked(&command) {
        Some((settings, turns)) => {
            let mut told = FloorLog::new(log);
            let done = run_floor(
                alloc, files, settings, turns, links, clock, keeper, shelf, &mut told,
            );
            end_floor(out, done)
        }
        None => {
            let end = run(
                rt, alloc, &command, files, link, clock, keeper, shelf, doors, log,
            );
            end_host(out, end)
        }
    }
}
