//! Command lines as the commands that are read of them, and commands as texts.
use octo_outside::WordList;
use octo_words::{Command, FilePath, WordsFault, asks_progress, read_words};
use std::alloc::{AllocError, Global};
use std::process::Abort;

// The arguments of a command line, which are separated by spaces.
pub(super) fn word_list(rt: &(impl Abort + Alloc<A = Global>), line: &str) -> WordList {
    let mut words = WordList::new(rt.alloc());
    if line != "" {
        for word in line.split(' ') {
            assert!(rt; words.push(word).is_ok());
        }
    }
    words
}

// The command of a command line.
pub(super) fn read(
    rt: &(impl Abort + Alloc<A = Global>),
    line: &str,
) -> Result<Command, WordsFault> {
    let words = word_list(rt, line);
    let command = read_words(rt.alloc(), &words);
    drop(words);
    command
}

fn or_none(path: &Option<FilePath>) -> &str {
    match path {
        Some(path) => path.as_str(),
        None => "none",
    }
}

// A command with its operands and options in the order of its row.
fn text_of(alloc: Global, command: &Command) -> Result<String, AllocError> {
    match command {
        Command::Print {
            port,
            file,
            turns,
            settings,
            sure,
        } => format!(in alloc;
            "{} {} {} {turns} {}",
            if *sure { "sure" } else { "print" },
            port.as_str(),
            file.as_str(),
            or_none(settings)
        ),
        Command::Check { file, settings } => {
            format!(in alloc; "check {} {}", file.as_str(), or_none(settings))
        }
        Command::Demo {
            seed,
            commands,
            lost,
        } => match lost {
            Some(replies) => format!(in alloc;
                "demo {seed} {commands} {} up to {}",
                replies.as_slice().len(),
                replies.as_slice().last().copied().unwrap_or(0)
            ),
            None => format!(in alloc; "demo {seed} {commands}"),
        },
        Command::Measure { file } => format!(in alloc; "measure {}", file.as_str()),
        Command::Rest { file, command } => format!(in alloc; "rest {} {command}", file.as_str()),
        Command::Serve {
            address,
            folder,
            database,
            settings,
        } => format!(in alloc;
            "serve {} {} {} {}",
            address.as_str(),
            folder.as_str(),
            database.as_str(),
            settings.as_str()
        ),
        Command::Floor {
            folder,
            database,
            settings,
            turns,
        } => format!(in alloc;
            "floor {} {} {} {turns}",
            folder.as_str(),
            database.as_str(),
            settings.as_str()
        ),
    }
}

// The text of what was read: of a command, or of why there is none.
pub(super) fn text_read(
    alloc: Global,
    read: &Result<Command, WordsFault>,
) -> Result<String, AllocError> {
    match read {
        Ok(command) => text_of(alloc, command),
        Err(fault) => format!(in alloc; "{fault}"),
    }
}

// Whether a command line asks for a print's progress.
pub(super) fn asks(rt: &(impl Abort + Alloc<A = Global>), line: &str) -> Result<bool, WordsFault> {
    let words = word_list(rt, line);
    let asks = asks_progress(rt.alloc(), &words);
    drop(words);
    asks
}
