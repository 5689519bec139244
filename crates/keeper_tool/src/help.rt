//! The help of the tool, and what is wrong with arguments that are no command.
use byte_text::{Name, number_in};
use octo_outside::WordList;

const HELP: &str = "\
Writes out the tables of an octo database, or adds print records to try it with.

usage: keeper_tool FILE [prints N]

FILE      the database: a path of 1 to 100 bytes
prints N  adds N records of finished prints
";

const VERSION: &str = "keeper_tool 1\n";

// What the arguments ask for: the help or the version.
pub(crate) fn asked_text(words: &WordList) -> Option<&'static str> {
    if words.count() != 1 {
        return None;
    }
    match words.get(0) {
        "--help" | "-h" => Some(HELP),
        "--version" | "-V" => Some(VERSION),
        _ => None,
    }
}

// What is wrong with arguments that are no command.
pub(crate) fn wrong_argument(words: &WordList) -> &'static str {
    match words.count() {
        1 => {}
        3 => {
            if words.get(1) != "prints" {
                return "the second argument has to be prints";
            }
            if number_in(words.get(2)).is_none() {
                return "N has to be a number up to 4294967295";
            }
        }
        _ => return "it takes one argument or three",
    }
    let file = words.get(0);
    if file.is_empty() || Name::from_text(file).is_none() {
        return "FILE has to be a text of 1 to 100 bytes";
    }
    "the arguments are no command"
}
