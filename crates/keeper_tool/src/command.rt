//! The command that the arguments are.
ghost use Rattle.std.specs.Prelude.{◌≡◌, length};
ghost use Rattle.keeper_tool.specs.Commands.{prints_command, command_of, on_file};

use byte_text::{Name, number_in};
use octo_outside::WordList;

/// What is to be done with a database.
#[derive(Clone, Copy, Debug, PartialEq, Eq)]
pub enum Task {
    /// Its tables are written out.
    Show,
    /// This number of records of finished prints is added to it.
    Add { prints: u32 },
}

/// A command: the path of a database, and what is to be done with it.
#[derive(Drop)]
pub struct Command {
    pub file: Name,
    pub task: Task,
}

// A task on the database of a path of 1 to 100 bytes.
fn on_file(file: &str, task: Task) -> Option<Command>
    ensures { result ≡ on_file file.now task }
{
    if file.is_empty() {
        return None;
    }
    let file = Name::from_text(file)?;
    Some(Command { file, task })
}

fn prints_command(file: &str, word: &str, number: &str) -> Option<Command>
    ensures { result ≡ prints_command file.now word.now number.now }
{
    if word != "prints" {
        return None;
    }
    match number_in(number) {
        Some(prints) => on_file(file, Task::Add { prints }),
        None => None,
    }
}

/// The command that the arguments are: `FILE`, or `FILE prints N`.
pub fn read_command(words: &WordList) -> Option<Command>
    ensures { result ≡ command_of words.now }
{
    match words.count() {
        1 => on_file(words.get(0), Task::Show),
        3 => prints_command(words.get(0), words.get(1), words.get(2)),
        _ => None,
    }
}
