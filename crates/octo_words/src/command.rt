//! The commands of the host, with their operands and options.
ghost use Rattle.std.specs.Prelude.{◌≡◌, ◌++◌, [], ◌∷◌, IfOk, OnOk};

use byte_text::Name;
use std::alloc::{AllocError, Global};
use std::marker::Model;
use thiserror::Error;

/// The path of a file, as the command line has it; seen as its bytes.
#[derive(Debug, Drop)]
pub struct FilePath {
    text: String,
}

impl Model for FilePath {
    ghost use Rattle.std.specs.Prelude.{List, ℕ, string_bytes};

    ghost Value = { List ℕ };

    ghost view = { λ p. string_bytes p.text };
}

impl FilePath {
    /// The path that a text is. Fails if out of memory.
    pub fn from_text(alloc: Global, text: &str) -> Result<FilePath, AllocError>
        ensures { IfOk result (λ path. path ≡ text.now) }
    {
        Ok(FilePath {
            text: String::from_str(alloc, text)?,
        })
    }

    /// The path as a text.
    pub fn as_str(&self) -> &str
        ensures { result.now ≡ self.now }
    {
        self.text.as_str()
    }
}

/// Replies by their numbers, which rise.
#[derive(Debug, Drop)]
pub struct ReplyList {
    numbers: Vec<u64>,
}

impl Model for ReplyList {
    ghost use Rattle.std.specs.Prelude.{List, ℕ};

    ghost Value = { List ℕ };

    ghost view = { λ r. r.numbers.items };
}

impl ReplyList {
    // No reply. Takes no memory.
    pub(crate) fn new(alloc: Global) -> ReplyList
        ensures { result ≡ [] }
    {
        ReplyList {
            numbers: Vec::new(alloc),
        }
    }

    // Adds a number at the end.
    pub(crate) fn push(&mut self, number: u64) -> Result<(), AllocError>
        ensures { OnOk result (self.new ≡ self.old ++ number ∷ []) }
    {
        self.numbers.push(number)?;
        Ok(())
    }

    /// The numbers, counted from 1.
    pub fn as_slice(&self) -> &[u64]
        ensures { result.now ≡ self.now }
    {
        self.numbers.as_slice()
    }
}

/// What the host is asked to do.
#[derive(Debug, Drop)]
pub enum Command {
    /// `print PORT FILE [--turns N] [--settings FILE] [--progress]`: prints a file over a port of 1 to 100 bytes, in 1 to
    /// 4,000,000,000,000 turns (1,000,000,000 if none are named). `asks_progress` says whether its progress is asked for.
    ///
    /// `sure PORT FILE [--turns N] [--settings FILE]` is the same for a printer whose `ok`s have numbers, whatever the settings say
    /// of that.
    Print {
        port: Name,
        file: FilePath,
        turns: u64,
        settings: Option<FilePath>,
        sure: bool,
    },
    /// `check FILE [--settings FILE]`: reads a file and counts its commands.
    Check {
        file: FilePath,
        settings: Option<FilePath>,
    },
    /// `demo SEED COMMANDS [--lost-replies LIST]`: prints a file made from a number up to 2,147,483,647, of at most 200,000
    /// commands. If a list is given, the printer's `ok`s have numbers, and those replies are lost: numbers from 1 on that rise,
    /// with commas between, or `-` for none.
    Demo {
        seed: u32,
        commands: u32,
        lost: Option<ReplyList>,
    },
    /// `measure FILE`: the filament and the extents of a file.
    Measure {
        file: FilePath,
    },
    /// `rest FILE COMMAND`: the rest of a file from a command on, counted from 0; at most 9,999,999,999,999.
    Rest {
        file: FilePath,
        command: u64,
    },
    /// `serve ADDRESS FOLDER DATABASE --settings FILE`: serves the API at an address, over the files of a folder and the tables
    /// of a database; each of the three has 1 to 100 bytes.
    Serve {
        address: Name,
        folder: Name,
        database: Name,
        settings: FilePath,
    },
    /// `floor FOLDER DATABASE --settings FILE [--turns N]`: prints the queue of a database on several printers, with the files of
    /// a folder, in turns as `print` has them.
    Floor {
        folder: Name,
        database: Name,
        settings: FilePath,
        turns: u64,
    },
}

/// Why the arguments are no command.
#[derive(Clone, Copy, Debug, PartialEq, Eq, Error)]
pub enum WordsFault {
    /// They are no command.
    #[error("bad words")]
    BadWords,
    /// Out of memory.
    #[error("out of memory")]
    NoMemory,
}

impl From<AllocError> for WordsFault {
    ghost use Rattle.octo_words.specs.declared.command.WordsFault.TheVariants as fault;

    ghost from_gives = { λ _ e. e ≡ fault.NoMemory };

    fn from(_: AllocError) -> Self {
        WordsFault::NoMemory
    }
}
