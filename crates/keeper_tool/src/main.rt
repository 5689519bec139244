//! A host's database from the command line: what its tables hold, and print records to try it with.
#![tactic(auto)]

mod add;
mod carry;
mod command;
mod end;
mod help;
mod lines;
#[cfg(test)]
mod tests;
mod texts;

use carry::carry_out;
use command::{Command, read_command};
use end::ToolEnd;
use help::{asked_text, wrong_argument};
use octo_keeper::KeeperFault;
use octo_keeper_file::{close_keeper, open_keeper};
use octo_outside::{ArgumentsFault, Failed, StdSink, WordList, arguments, write_all};
use std::process::ExitCode;
use texts::{write_end, write_path};

// Carries out a command on its database, which is closed at the end.
fn open_and_carry_out(
    rt: &HostRuntime,
    command: &Command,
    out: &mut StdSink<HostRuntime>,
) -> ToolEnd {
    match open_keeper(rt, &command.file) {
        Ok(mut keeper) => {
            let end = carry_out(rt.alloc(), &mut keeper, command.task, out);
            close_keeper(keeper);
            end
        }
        Err(KeeperFault::Failed) => ToolEnd::NotOpened,
        Err(KeeperFault::NoMemory) => ToolEnd::NoMemory,
    }
}

// Carries out the command that the arguments are, and writes what is in front of the text of its end.
fn carry_out_arguments(
    rt: &HostRuntime,
    words: &WordList,
    out: &mut StdSink<HostRuntime>,
) -> ToolEnd {
    let Some(command) = read_command(words) else {
        let _ = eprintln!(rt; "keeper_tool: {}", wrong_argument(words));
        return ToolEnd::BadArguments;
    };
    let end = open_and_carry_out(rt, &command, out);
    match write_path(out, &command.file, end) {
        Ok(()) => end,
        Err(Failed) => ToolEnd::OutputFailed,
    }
}

// Writes the help or the version, if the arguments ask for one. Otherwise carries out the command that they are.
fn carry_out_words(rt: &HostRuntime, words: &WordList, out: &mut StdSink<HostRuntime>) -> ToolEnd {
    let Some(text) = asked_text(words) else {
        return carry_out_arguments(rt, words, out);
    };
    match write_all(out, text.as_bytes()) {
        Ok(()) => ToolEnd::Shown,
        Err(Failed) => ToolEnd::OutputFailed,
    }
}

fn main(rt: HostRuntime) -> ExitCode {
    let mut out = StdSink::new(rt);
    let end = match arguments(&rt) {
        Ok(words) => carry_out_words(&rt, &words, &mut out),
        Err(ArgumentsFault::NotText) => {
            let _ = eprintln!(rt; "keeper_tool: an argument isn't UTF-8");
            ToolEnd::BadArguments
        }
        Err(ArgumentsFault::NoMemory) => ToolEnd::NoMemory,
    };
    let end = match write_end(&mut out, end) {
        Ok(()) => end,
        Err(Failed) => ToolEnd::OutputFailed,
    };
    ExitCode::from(end.code())
}
