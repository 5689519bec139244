//! The commands of one file.
ghost use Rattle.std.specs.Prelude.{◌≡◌, ℕ, ◌<◌, ◌≤◌, not, ◌==◌, [], length, slice_index, slice_index_or, All};
ghost use Rattle.std.specs.List.{suffix_len};
ghost use Rattle.byte_text.specs.Sendable.{IsSendable};
ghost use Rattle.gcode_lines.specs.Job.{most_bytes, texts_of, numbers_of, places_of, packed_of, IsCutFrom};
ghost use Rattle.gcode_lines.specs.Found.{AreFound};
ghost use Rattle.gcode_lines.specs.Packed.{job_at, line_start};

use crate::packed_entry::{begin_in, length_in, line_in};
use crate::places::Places;
use octo_outside::Blob;
use std::marker::Model;

/// The commands of one file, in the file's order, each with its line and that line's place, as a print's progress needs
/// them. It holds the file's bytes once, and eight bytes a command.
#[derive(Drop)]
pub struct Job {
    file: Blob,
    places: Places,
}

impl Model for Job {
    ghost use Rattle.gcode_lines.specs.Job.{JobData};

    ghost Value = { JobData };

    ghost use Rattle.gcode_lines.specs.Held.{data_of, IsHeld};

    ghost view = { data_of };

    ghost invariant = { IsHeld };
}

impl Job {
    // The job of a file in which these commands were found.
    pub(crate) fn new(file: Blob, places: Places) -> Job
        requires { AreFound file places }
        ensures { result ≡ job_at file places }
    {
        Job { file, places }
    }

    /// How many commands there are.
    pub fn count(&self) -> usize
        ensures value { result ≡ length self.now.commands }
        ensures few { result ≤ most_bytes }
    {
        self.places.entries().len()
    }

    /// The text of a command, which may be sent.
    pub fn get(&self, i: usize) -> &[u8]
        requires { i < length self.now.commands }
        ensures value { result.now ≡ slice_index_or (texts_of self.now) i [] }
        ensures sendable { IsSendable result.now }
    {
        let entry = self.places.entries()[i];
        let begin = begin_in(entry);
        &self.file.as_slice()[begin..begin + length_in(entry)]
    }

    /// The line of a command, counted from 1.
    pub fn line(&self, i: usize) -> u32
        requires { i < length self.now.commands }
        ensures { result ≡ slice_index (numbers_of self.now) i }
    {
        line_in(self.places.entries()[i])
    }

    /// The place of the first byte of a command's line, in bytes from 0. It is looked for backward from the text.
    pub fn place(&self, i: usize) -> u32
        requires { i < length self.now.commands }
        ensures { result ≡ slice_index (places_of self.now) i }
    {
        line_start(self.file.as_slice(), begin_in(self.places.entries()[i])) as u32
    }

    /// How many lines hold no command.
    pub fn skipped(&self) -> u32
        ensures value { result ≡ self.now.skipped }
        ensures few { result ≤ most_bytes }
    {
        self.places.skipped()
    }

    /// How many bytes the file has.
    pub fn bytes(&self) -> u32
        ensures value { result ≡ self.now.bytes }
        ensures few { result ≤ most_bytes }
    {
        self.file.len() as u32
    }

    /// The whole file.
    pub fn text(&self) -> &[u8]
        ensures { result.now ≡ self.now.file }
    {
        self.file.as_slice()
    }

    /// The commands as entries of 64 bits, in order. The entry of a command is `t + 2^28 * n + 2^35 * l` if its text begins
    /// at byte t of the file, has n bytes and is in line l, counted from 1.
    pub fn packed(&self) -> &[u64]
        ensures entries { result.now ≡ packed_of self.now }
        ensures texts { All (IsCutFrom self.now.file) self.now.commands }
    {
        self.places.entries()
    }
}

// The first place of the line in which a place of the file is.
fn line_start(file: &[u8], place: usize) -> usize
    requires { place ≤ length file.now }
    ensures { result ≡ line_start file.now place }
{
    place - bytes_after_feed(&file[..place])
}

// How many bytes are after the last line feed.
fn bytes_after_feed(bytes: &[u8]) -> usize
    ensures value { result ≡ suffix_len (λ byte. not (byte == 10)) bytes.now }
    ensures fits { result ≤ length bytes.now }
{
    bytes
        .iter()
        .rev()
        .take_while(|byte| **byte != b'\n')
        .count()
}
