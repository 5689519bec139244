//! What a printer reads of a line, but for the order of the numbers.
ghost use Rattle.marlin_frame.specs.Reading.{IsReading};

use crate::parts::{begins_with_n, checksum_matches, has_checksum, line_number, text};

/// What a line is, by its checksum alone.
#[derive(Clone, Copy, Debug, PartialEq, Eq)]
pub enum Read<'a> {
    /// A numbered line whose checksum is right.
    Numbered {
        /// The number that the line counts by.
        n: u32,
        /// The command without number and checksum.
        text: &'a [u8],
    },
    /// A numbered line whose checksum is wrong.
    BadSum,
    /// A numbered line without a checksum.
    NoSum,
    /// A line without a number.
    Plain,
}

/// Reads a line: numbered with its number and command, or what is wrong with it.
pub fn read_frame(line: &[u8]) -> Read<'_>
    ensures { IsReading result line.now }
{
    if !begins_with_n(line) {
        return Read::Plain;
    }
    if !has_checksum(line) {
        return Read::NoSum;
    }
    if !checksum_matches(line) {
        return Read::BadSum;
    }
    Read::Numbered {
        n: line_number(line),
        text: text(line),
    }
}
