//! The help of the program, and what is wrong with arguments that are no plan.
use crate::plan::{is_address, read_count, read_places};
use byte_text::number_in;
use octo_outside::WordList;
use std::alloc::Global;

// What the program's arguments are.
pub(crate) const USAGE: &str = "usage: marlin_sim ADDRESS LAST SLOTS DROP GARBLE [LOST]";

const HELP: &str = "\
A modelled Marlin printer: serves one connection, and prints what it executed.

usage: marlin_sim ADDRESS LAST SLOTS DROP GARBLE [LOST]

ADDRESS  where it listens: HOST:PORT or unix:PATH; or pty:LINK:BOOT, a board at a pseudo-terminal
LAST     its last line number at the beginning
SLOTS    how many lines it keeps waiting, 1 to 16
DROP     the received lines that it loses, as 2,5, counted from 1; - for none
GARBLE   those that it receives with another last digit; - for none
LOST     the replies that are lost, counted from 1 after start; - for none. With it each ok but that to M105 names its line
";

const VERSION: &str = "marlin_sim 1\n";

// What the arguments ask for: the help or the version.
pub(crate) fn asked_text(words: &WordList) -> Option<&'static str> {
    if words.count() != 1 {
        return None;
    }
    match words.get(0) {
        "--help" | "-h" | "help" => Some(HELP),
        "--version" | "-V" => Some(VERSION),
        _ => None,
    }
}

// What is wrong with an argument that lists lines, unless it is the other one of them or memory ran out.
fn wrong_places(alloc: Global, word: &str) -> bool {
    matches!(read_places(alloc, word), Ok(None))
}

// What is wrong with arguments that are no plan.
pub(crate) fn wrong_argument(alloc: Global, words: &WordList) -> &'static str {
    if words.count() != 5 && words.count() != 6 {
        return "it takes five or six arguments";
    }
    if !is_address(words.get(0)) {
        return "ADDRESS has to be a text of 1 to 100 bytes";
    }
    if number_in(words.get(1)).is_none() {
        return "LAST has to be a number up to 4294967295";
    }
    if read_count(words.get(2)).is_none() {
        return "SLOTS has to be a number from 1 to 16";
    }
    if wrong_places(alloc, words.get(3)) {
        return "DROP has to be - or rising numbers from 1 with commas between";
    }
    if words.count() == 5 || wrong_places(alloc, words.get(4)) {
        return "GARBLE has to be - or rising numbers from 1 with commas between";
    }
    "LOST has to be - or rising numbers from 1 with commas between"
}
