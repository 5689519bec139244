//! The lines of a file, one after another.
ghost use Rattle.std.specs.Prelude.{◌≡◌, ◌==◌, ◌≤◌, length};
ghost use Rattle.std.specs.List.{before_first, position_or_len};
ghost use Rattle.gcode_lines.specs.Text.{is_mark, ends_command};

use crate::text::is_mark;

// A line without its line feed, and its command: what is before a comment or a checksum.
#[derive(Clone, Copy)]
pub(crate) struct Line<'a> {
    pub(crate) bytes: &'a [u8],
    pub(crate) command: &'a [u8],
    ghost cut: { command.now ≡ before_first is_mark bytes.now },
}

// A byte that ends a line's command: its line feed, or one that begins a comment or a checksum.
fn ends_command(byte: u8) -> bool
    ensures { result ≡ ends_command byte }
{
    byte == b'\n' || is_mark(byte)
}

// How many bytes of the first line are its command, with blanks and line number.
fn command_len(bytes: &[u8]) -> usize
    ensures value { result ≡ position_or_len ends_command bytes.now }
    ensures fits { result ≤ length bytes.now }
{
    bytes
        .iter()
        .take_while(|byte| !ends_command(**byte))
        .count()
}

// The place of the first line feed, or the length.
fn line_len(bytes: &[u8]) -> usize
    ensures value { result ≡ position_or_len (λ byte. byte == 10) bytes.now }
    ensures fits { result ≤ length bytes.now }
{
    bytes.iter().take_while(|byte| **byte != b'\n').count()
}

// The first line. Its bytes are looked at once, so the line feed is looked for where its command ends.
pub(crate) fn first_line(bytes: &[u8]) -> Line<'_>
    ensures value { result.bytes.now ≡ before_first (λ byte. byte == 10) bytes.now }
    ensures fits { length result.bytes.now ≤ length bytes.now }
{
    let command = command_len(bytes);
    let others = line_len(&bytes[command..]);
    Line {
        bytes: &bytes[..command + others],
        command: &bytes[..command],
    }
}
