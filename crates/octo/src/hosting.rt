//! The commands that have a folder and a database: a host at an address, and a floor of printers.
use crate::absent::absent_doors;
use crate::carrying::{carry_out_stored, end_with};
use crate::host_log::{HostLog, Logs, drop_doors, with_log};
use byte_text::Name;
use octo_files::Report;
use octo_log::{log_serving, log_stopped};
use octo_outside::{StdSink, WordList};
use octo_outside_bell::{Ear, bell_and_ear};
use octo_outside_doors::{Doors, TcpDoor};
use octo_serve_command::HostReport;
use std::alloc::AllocError;
use std::net::{Net, TcpListener, TcpStream};
use std::process::ExitCode;
use std::sync::Wait;
use std::thread::Threads;
use std::time::Clock;

// Doors at an address, and an ear for the bell that those ring who serve their connections. Fails if out of memory.
fn open_doors<R: Net<Listener = TcpListener, Stream = TcpStream> + Copy>(
    rt: &R,
    system: &HostRuntime,
    address: &Name,
) -> Result<(Doors<TcpDoor<R>>, Ear), AllocError> {
    let (bell, ear) = bell_and_ear(system, system.alloc())?;
    let doors = TcpDoor::four(rt, system.alloc(), address.as_str(), &bell)?;
    Ok((doors, ear))
}

// Serves at an address, over a folder and a database. A host that listens has a log. An address that can't be bound fails at each call.
pub(crate) fn serve_with<
    R: Net<Listener = TcpListener, Stream = TcpStream>
        + Clock
        + Threads
        + Wait
        + Copy
        + Send
        + Sync
        + Drop,
>(
    rt: &R,
    system: &HostRuntime,
    words: &WordList,
    boot_ms: Option<u16>,
    out: &mut StdSink<HostRuntime>,
    address: &Name,
    folder: &Name,
    database: &Name,
) -> ExitCode {
    let Ok((bound, ear)) = open_doors(rt, system, address) else {
        return end_with(out, &HostReport::Command(Report::NoMemory));
    };
    let listens = bound.a.address().is_some();
    let mut doors = with_log(system, bound, listens);
    let mut log = HostLog::new(system, listens);
    let logs = Logs {
        calls: listens,
        events: listens,
    };
    log_serving(&mut log, address);
    let code = carry_out_stored(
        rt,
        system,
        words,
        boot_ms,
        out,
        folder,
        database,
        &mut doors,
        logs,
        ear,
        &Ear::deaf(),
    );
    log_stopped(&mut log);
    drop_doors(doors);
    code
}

// An ear that always hears a ring, so that no link waits. Fails if out of memory.
fn ringing_ear(system: &HostRuntime) -> Result<Ear, AllocError> {
    let (mut bell, ear) = bell_and_ear(system, system.alloc())?;
    bell.ring();
    Ok(ear)
}

// Runs a floor over a folder and a database, and says what its printers do. Its links don't wait one for another: if none has a line, the
// clock rests.
pub(crate) fn floor_with<
    R: Net<Listener = TcpListener, Stream = TcpStream>
        + Clock
        + Threads
        + Wait
        + Copy
        + Send
        + Sync
        + Drop,
>(
    rt: &R,
    system: &HostRuntime,
    words: &WordList,
    boot_ms: Option<u16>,
    out: &mut StdSink<HostRuntime>,
    folder: &Name,
    database: &Name,
) -> ExitCode {
    let Ok(ear) = ringing_ear(system) else {
        return end_with(out, &HostReport::Command(Report::NoMemory));
    };
    let mut doors = with_log(system, absent_doors(rt), false);
    let logs = Logs {
        calls: false,
        events: true,
    };
    let code = carry_out_stored(
        rt,
        system,
        words,
        boot_ms,
        out,
        folder,
        database,
        &mut doors,
        logs,
        Ear::deaf(),
        &ear,
    );
    drop_doors(doors);
    code
}
