//! A print host for 3D printers: prints a file over a link to the printer, checks files, serves the API of a host, and prints a queue on a
//! floor of printers.
#![tactic(auto)]

ghost use Rattle.std.specs.Prelude.{◌≡◌};
ghost use Rattle.octo_commands.specs.Commands.{arguments_fault_report};

mod absent;
mod carrying;
mod causes;
mod host_links;
mod host_log;
mod hosting;
mod showing;

use carrying::{boot_ms_of, carry_out_unserved, end_with};
use causes::say_of_arguments;
use hosting::{floor_with, serve_with};
use octo_files::{OUTPUT_FAILED, Report, SUCCESS};
use octo_outside::{ArgumentsFault, Blob, StdSink, WordList, arguments, write_all};
use octo_serve_command::HostReport;
use octo_words::{Command, Remark, WordsFault, read_words, remark_on};
use std::alloc::AllocError;
use std::net::{Net, TcpListener, TcpStream};
use std::process::ExitCode;
use std::sync::Wait;
use std::thread::Threads;
use std::time::Clock;

// The report on arguments that can't be used.
fn arguments_fault_report(fault: ArgumentsFault) -> HostReport
    ensures { result ≡ arguments_fault_report fault }
{
    HostReport::Command(match fault {
        ArgumentsFault::NotText => Report::BadWords,
        ArgumentsFault::NoMemory => Report::NoMemory,
    })
}

// Carries out this command, which the arguments are.
fn carry_out_command<
    R: Net<Listener = TcpListener, Stream = TcpStream>
        + Clock
        + Threads
        + Wait
        + Copy
        + Send
        + Sync
        + Drop,
>(
    rt: &R,
    system: &HostRuntime,
    words: &WordList,
    out: &mut StdSink<HostRuntime>,
    command: &Command,
) -> ExitCode {
    let boot_ms = boot_ms_of(system, command);
    match command {
        Command::Serve {
            address,
            folder,
            database,
            ..
        } => serve_with(rt, system, words, boot_ms, out, address, folder, database),
        Command::Floor {
            folder,
            database,
            ..
        } => floor_with(rt, system, words, boot_ms, out, folder, database),
        _ => carry_out_unserved(rt, system, words, boot_ms, out),
    }
}

// Writes the help or the version that the arguments ask for.
fn end_with_help(out: &mut StdSink<HostRuntime>, text: &Blob) -> ExitCode {
    match write_all(out, text.as_slice()) {
        Ok(()) => ExitCode::from(SUCCESS),
        Err(_) => ExitCode::from(OUTPUT_FAILED),
    }
}

// Ends with the help or the version if the arguments ask for it. Otherwise the standard error says which of them is wrong.
fn end_without_command<
    R: Net<Listener = TcpListener, Stream = TcpStream>
        + Clock
        + Threads
        + Wait
        + Copy
        + Send
        + Sync
        + Drop,
>(rt: &R, system: &HostRuntime, words: &WordList, out: &mut StdSink<HostRuntime>) -> ExitCode {
    match remark_on(system.alloc(), words) {
        Ok(Remark::Asked(text)) => return end_with_help(out, &text),
        Ok(Remark::Wrong(line)) => {
            let _ = write_all(&mut StdSink::new(system.stderr()), line.as_slice());
        }
        Err(AllocError) => {}
    }
    carry_out_unserved(rt, system, words, None, out)
}

fn main(rt: HostRuntime) -> ExitCode {
    let mut out = StdSink::new(rt);
    let words = match arguments(&rt) {
        Ok(words) => words,
        Err(fault) => {
            say_of_arguments(&rt, fault);
            return end_with(&mut out, &arguments_fault_report(fault));
        }
    };
    match read_words(rt.alloc(), &words) {
        Ok(command) => carry_out_command(&rt, &rt, &words, &mut out, &command),
        Err(WordsFault::BadWords) => end_without_command(&rt, &rt, &words, &mut out),
        Err(WordsFault::NoMemory) => carry_out_unserved(&rt, &rt, &words, None, &mut out),
    }
}
