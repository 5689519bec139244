//! A command packed into an entry of 64 bits: the place of its text in the file, the text's length and its line.
ghost use Rattle.std.specs.Prelude.{◌≡◌, ◌^◌, ◌<◌};
ghost use Rattle.gcode_lines.specs.Job.{entry_at};
ghost use Rattle.gcode_lines.specs.Packed.{begin_in, length_in, line_in};

// What one byte of length adds to an entry; places are below it.
const PER_BYTE: u64 = 0x1000_0000;

// What one line adds to an entry.
const PER_LINE: u64 = 0x8_0000_0000;

// Lengths are below this.
const LENGTHS: u64 = 0x80;

// The entry of a text at this place, of this length, in this line.
pub(crate) fn entry_at(begin: usize, length: usize, line: u32) -> u64
    requires begin { begin < 2 ^ 28 }
    requires length { length < 2 ^ 7 }
    requires line { line < 2 ^ 29 }
    ensures { result ≡ entry_at begin length line }
{
    begin as u64 + PER_BYTE * length as u64 + PER_LINE * u64::from(line)
}

// Where the text begins in the file.
pub(crate) fn begin_in(entry: u64) -> usize
    ensures { result ≡ begin_in entry }
{
    (entry % PER_BYTE) as usize
}

// How many bytes the text has.
pub(crate) fn length_in(entry: u64) -> usize
    ensures { result ≡ length_in entry }
{
    (entry / PER_BYTE % LENGTHS) as usize
}

// The line, counted from 1.
pub(crate) fn line_in(entry: u64) -> u32
    ensures { result ≡ line_in entry }
{
    (entry / PER_LINE) as u32
}
