//! What the standard error says of a run that failed: which argument, file or address was wrong, and why.
//!
//! The calls of `octo` say that a file or an address failed, not why. So it is looked at once more; what isn't found out by that isn't
//! said.
use crate::host_links::HostLink;
use octo_files::{DOOR_FAILED, LINK_FAILED, OUTPUT_FAILED, SOURCE_FAILED, STORE_FAILED};
use octo_floor::Links;
use octo_keeper::KeeperFault;
use octo_outside::{ArgumentsFault, WordList};
use octo_words::{Command, FilePath, read_words};
use printer_link_cause::{Cause, WatchedLink, cause_words};
use printer_link_socket::{names_address, names_port};
use std::io::{ErrorKind, Read};
use std::net::TcpListener;
use std::{fs, io, str};

// Says why the arguments can't be used.
pub(crate) fn say_of_arguments(rt: &HostRuntime, fault: ArgumentsFault) {
    let said = match fault {
        ArgumentsFault::NotText => "an argument isn't UTF-8",
        ArgumentsFault::NoMemory => "out of memory",
    };
    let _ = eprintln!(rt; "octo: {said}");
}

// Says of what is named why a call of the system failed.
fn say_of_error(rt: &HostRuntime, name: &str, error: &io::Error) {
    let _ = match error.kind() {
        ErrorKind::NotFound => eprintln!(rt; "octo: {name}: no such file or folder"),
        ErrorKind::AddrInUse => eprintln!(rt; "octo: {name}: address already in use"),
        kind => eprintln!(rt; "octo: {name}: {kind}"),
    };
}

// Reads the first byte of a file.
fn read_first(rt: &HostRuntime, path: &str) -> io::Result<usize> {
    let mut file = fs::open(rt, path)?;
    file.read(&mut [0])
}

// Says why a file can't be read, if it can't.
fn say_of_file(rt: &HostRuntime, path: &FilePath) {
    if let Err(error) = read_first(rt, path.as_str()) {
        say_of_error(rt, path.as_str(), &error);
    }
}

// Says which of a command's files can't be read, and why.
fn say_of_files(rt: &HostRuntime, command: &Command) {
    match command {
        Command::Print { file, settings, .. } | Command::Check { file, settings } => {
            say_of_file(rt, file);
            if let Some(settings) = settings {
                say_of_file(rt, settings);
            }
        }
        Command::Measure { file } | Command::Rest { file, .. } => say_of_file(rt, file),
        Command::Serve { settings, .. } | Command::Floor { settings, .. } => {
            say_of_file(rt, settings);
        }
        Command::Demo { .. } => {}
    }
}

// Says of a port that it has another form.
fn say_of_port(rt: &HostRuntime, command: &Command) {
    if let Command::Print { port, .. } = command
        && !names_port(port.as_str())
    {
        let _ = eprintln!(rt;
            "octo: {} isn't HOST:PORT, unix:PATH or tty:PATH",
            port.as_str()
        );
    }
}

// Says of a port why its link failed.
fn say_of_cause(rt: &HostRuntime, command: &Command, cause: Cause) {
    if let Command::Print { port, .. } = command {
        let text = cause_words(cause);
        let said = str::from_utf8(text.as_slice()).unwrap_or("");
        let _ = eprintln!(rt; "octo: {}: {said}", port.as_str());
    }
}

// Says why the link of a print failed. A host's log says it of a host's.
pub(crate) fn say_of_link(rt: &HostRuntime, words: &WordList, code: u8, cause: Cause) {
    if code != LINK_FAILED {
        return;
    }
    if let Ok(command) = read_words(rt.alloc(), words) {
        say_of_cause(rt, &command, cause);
    }
}

// Says why the link of a floor's printer failed, if it did.
fn say_of_printer(rt: &HostRuntime, printer: u8, link: &HostLink) {
    if let Some(cause) = link.cause() {
        let text = cause_words(cause);
        let said = str::from_utf8(text.as_slice()).unwrap_or("");
        let _ = eprintln!(rt; "octo: printer {printer}: {said}");
    }
}

// Says why the links of a floor failed that did.
pub(crate) fn say_of_links(rt: &HostRuntime, links: &Links<HostLink>) {
    say_of_printer(rt, 0, &links.a);
    say_of_printer(rt, 1, &links.b);
    say_of_printer(rt, 2, &links.c);
    say_of_printer(rt, 3, &links.d);
    say_of_printer(rt, 4, &links.e);
    say_of_printer(rt, 5, &links.f);
    say_of_printer(rt, 6, &links.g);
    say_of_printer(rt, 7, &links.h);
}

// Says why the address of a host can't be bound, or that its socket failed.
fn say_of_door(rt: &HostRuntime, command: &Command) {
    if let Command::Serve { address, .. } = command {
        say_of_address(rt, address.as_str());
    }
}

// The same of this address.
fn say_of_address(rt: &HostRuntime, address: &str) {
    if !names_address(address) {
        let _ = eprintln!(rt; "octo: {address} isn't HOST:PORT");
        return;
    }
    match TcpListener::bind(rt, address) {
        Ok(_) => {
            let _ = eprintln!(rt; "octo: {address}: its socket failed");
        }
        Err(error) => say_of_error(rt, address, &error),
    }
}

// Says why a database can't be opened.
pub(crate) fn say_of_database(rt: &HostRuntime, database: &str, fault: KeeperFault) {
    match read_first(rt, database) {
        Err(error) if error.kind() != ErrorKind::NotFound => {
            say_of_error(rt, database, &error);
            return;
        }
        _ => {}
    }
    let said = match fault {
        KeeperFault::Failed => "it isn't a database of octo, is in use, or its folder is missing",
        KeeperFault::NoMemory => "out of memory",
    };
    let _ = eprintln!(rt; "octo: {database}: {said}");
}

// Says why a folder can't be listed, if it can't.
fn say_of_folder(rt: &HostRuntime, folder: &str) {
    if let Err(error) = fs::read_dir(rt, folder) {
        say_of_error(rt, folder, &error);
    }
}

// Says why the folder of a host or a floor can't be listed, if it can't.
fn say_of_store(rt: &HostRuntime, command: &Command) {
    match command {
        Command::Serve { folder, .. } | Command::Floor { folder, .. } => {
            say_of_folder(rt, folder.as_str());
        }
        _ => {}
    }
}

// Says that the standard output failed.
fn say_of_output(rt: &HostRuntime) {
    let _ = eprintln!(rt; "octo: the standard output can't be written");
}

// Says what an exit status leaves open of the command's files, port, folder or address.
fn say_of_command(rt: &HostRuntime, command: &Command, code: u8) {
    match code {
        SOURCE_FAILED => say_of_files(rt, command),
        LINK_FAILED => say_of_port(rt, command),
        STORE_FAILED => say_of_store(rt, command),
        DOOR_FAILED => say_of_door(rt, command),
        _ => {}
    }
}

// Says what the exit status leaves open of the command that the arguments are.
pub(crate) fn say_of_end(rt: &HostRuntime, words: &WordList, code: u8) {
    if code == OUTPUT_FAILED {
        say_of_output(rt);
    }
    if let Ok(command) = read_words(rt.alloc(), words) {
        say_of_command(rt, &command, code);
    }
}
