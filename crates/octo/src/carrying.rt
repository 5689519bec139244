//! A command is carried out over the system's files and sockets.
use crate::absent::{AbsentKeeper, absent_doors};
use crate::causes::{say_of_database, say_of_end, say_of_link, say_of_links};
use crate::host_links::{drop_links, host_link, host_links};
use crate::host_log::{HostDoors, HostLog, Logs, drop_doors, with_log};
use crate::showing::view_of;
use byte_text::Name;
use octo_commands::octo;
use octo_files::{OUTPUT_FAILED, Report, read_settings_of};
use octo_keeper::{Keeper, settle_prints};
use octo_keeper_file::{close_keeper, open_keeper};
use octo_keeper_folder::FolderShelf;
use octo_log::{LoggedKeeper, LoggedShelf};
use octo_outside::{FileSource, StdSink, SystemClock, WordList};
use octo_outside_bell::{Ear, EarClock};
use octo_serve_command::{HostReport, Opened, write_host_report};
use octo_words::Command;
use printer_link_cause::WatchedLink;
use std::net::{Net, TcpListener, TcpStream};
use std::process::ExitCode;
use std::sync::Wait;
use std::thread::Threads;
use std::time::Clock;

// Writes a report, and returns the program's exit status.
pub(crate) fn end_with(out: &mut StdSink<HostRuntime>, report: &HostReport) -> ExitCode {
    match write_host_report(out, report) {
        Ok(()) => ExitCode::from(report.code()),
        Err(_) => ExitCode::from(OUTPUT_FAILED),
    }
}

// How many milliseconds the printer may take to start, if the command's settings say it. Of settings that can't be read the command
// reports.
pub(crate) fn boot_ms_of(system: &HostRuntime, command: &Command) -> Option<u16> {
    let settings = match command {
        Command::Print {
            settings: Some(settings),
            ..
        } => settings,
        Command::Serve { settings, .. } | Command::Floor { settings, .. } => settings,
        _ => return None,
    };
    let mut files = FileSource::new(*system);
    match read_settings_of(system.alloc(), &mut files, Some(settings.as_str())) {
        Ok(settings) => settings.boot_ms,
        Err(_) => None,
    }
}

// Carries out the command that the arguments are, over the system's files and sockets, and returns the program's exit status. The links
// of a floor have another ear than its clock.
// `rt` starts threads, waits and listens; `system` opens what else the program works with. The program has one handle for both.
fn carry_out<
    R: Net<Listener = TcpListener, Stream = TcpStream>
        + Clock
        + Threads
        + Wait
        + Copy
        + Send
        + Sync
        + Drop,
    K: Keeper,
>(
    rt: &R,
    system: &HostRuntime,
    words: &WordList,
    boot_ms: Option<u16>,
    out: &mut StdSink<HostRuntime>,
    keeper: &mut K,
    folder: &Name,
    doors: &mut HostDoors<R>,
    logs: Logs,
    ear: Ear,
    floor_ear: &Ear,
) -> ExitCode {
    let Ok(folder_shelf) = FolderShelf::new(*system, folder) else {
        return end_with(out, &HostReport::Command(Report::NoMemory));
    };
    let mut shelf = LoggedShelf::new(folder_shelf, HostLog::new(system, logs.calls));
    let mut files = FileSource::new(*system);
    let mut link = host_link(system, view_of(system, words), boot_ms, &ear, logs.calls);
    let mut links = host_links(system, boot_ms, floor_ear);
    let mut clock = EarClock::new(*system, ear);
    let status = octo(
        rt,
        system.alloc(),
        words,
        &mut files,
        &mut link,
        out,
        &mut clock,
        keeper,
        &mut shelf,
        doors,
        HostLog::new(system, logs.events),
        &mut links,
    );
    say_of_end(system, words, status.code);
    if let Some(cause) = link.cause() {
        say_of_link(system, words, status.code, cause);
    }
    say_of_links(system, &links);
    drop_links(links);
    drop(link);
    drop(shelf);
    drop(clock);
    drop(files);
    ExitCode::from(status.code)
}

// Carries out a command over a folder and a database, which is closed at the end. A database that can't be opened and a missing folder
// fail at each call.
//
// This function alone holds the keeper of a database, so only its proof takes SQLite's types in.
pub(crate) fn carry_out_stored<
    R: Net<Listener = TcpListener, Stream = TcpStream>
        + Clock
        + Threads
        + Wait
        + Copy
        + Send
        + Sync
        + Drop,
>(
    rt: &R,
    system: &HostRuntime,
    words: &WordList,
    boot_ms: Option<u16>,
    out: &mut StdSink<HostRuntime>,
    folder: &Name,
    database: &Name,
    doors: &mut HostDoors<R>,
    logs: Logs,
    ear: Ear,
    floor_ear: &Ear,
) -> ExitCode {
    let mut keeper = LoggedKeeper::new(
        Opened::new(open_keeper(system, database)),
        HostLog::new(system, logs.calls),
        SystemClock::new(*system),
    );
    // If that fails, the host shows those prints as failed all the same.
    let _ = settle_prints(system.alloc(), &mut keeper);
    let code = carry_out(
        rt,
        system,
        words,
        boot_ms,
        out,
        &mut keeper,
        folder,
        doors,
        logs,
        ear,
        floor_ear,
    );
    match keeper.into_keeper().into_keeper() {
        Ok(keeper) => close_keeper(keeper),
        Err(fault) => say_of_database(system, database.as_str(), fault),
    }
    code
}

// Carries out a command that neither serves nor runs a floor: it has no database, no folder and no address.
pub(crate) fn carry_out_unserved<
    R: Net<Listener = TcpListener, Stream = TcpStream>
        + Clock
        + Threads
        + Wait
        + Copy
        + Send
        + Sync
        + Drop,
>(
    rt: &R,
    system: &HostRuntime,
    words: &WordList,
    boot_ms: Option<u16>,
    out: &mut StdSink<HostRuntime>,
) -> ExitCode {
    let mut keeper = AbsentKeeper::new();
    let mut doors = with_log(system, absent_doors(rt), false);
    let code = carry_out(
        rt,
        system,
        words,
        boot_ms,
        out,
        &mut keeper,
        &Name::new(),
        &mut doors,
        Logs {
            calls: false,
            events: false,
        },
        Ear::deaf(),
        &Ear::deaf(),
    );
    drop_doors(doors);
    code
}
