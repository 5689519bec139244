//! Names of print files.
ghost use Rattle.std.specs.Prelude.{◌≡◌};
ghost use Rattle.octo_access.specs.Names.{is_name};
ghost use Rattle.octo_access.specs.FileNames.{has_ending, is_gcode, is_hidden, is_file_name, file_name_of};

use crate::read_name;
use byte_text::{Name, same_text};

fn has_ending(text: &[u8], ending: &[u8]) -> bool
    ensures { result ≡ has_ending ending.now text.now }
{
    ending.len() <= text.len() && same_text(&text[text.len() - ending.len()..], ending)
}

/// Whether a text ends as the name of a print file: with `.gcode`, `.gco` or `.g` in any case.
pub fn is_gcode(text: &[u8]) -> bool
    ensures { result ≡ is_gcode text.now }
{
    has_ending(text, b".gcode") || has_ending(text, b".gco") || has_ending(text, b".g")
}

fn is_hidden(text: &[u8]) -> bool
    ensures { result ≡ is_hidden text.now }
{
    match text {
        [first, ..] => *first == b'.',
        [] => false,
    }
}

fn is_name(text: &str) -> bool
    ensures { result ≡ is_name text.now }
{
    read_name(text).is_some()
}

/// Whether a text is the name of a file: a name of 1 to 100 bytes that doesn't begin with `.` and ends with `.gcode`, `.gco` or
/// `.g` in any case.
pub fn is_file_name(text: &str) -> bool
    ensures { result ≡ is_file_name text.now }
{
    is_name(text) && !is_hidden(text.as_bytes()) && is_gcode(text.as_bytes())
}

/// A text as the name of a file, `None` if it is none.
pub fn read_file_name(text: &str) -> Option<Name>
    ensures { result ≡ file_name_of text.now }
{
    if is_file_name(text) {
        return Name::from_text(text);
    }
    None
}
