//! Where the commands of a file are, found line by line.
ghost use Rattle.std.specs.Prelude.{◌≡◌, ◌+◌, ◌<◌, ◌≤◌, ◌++◌, ◌⊎◌, [], ◌∷◌, None, Some, length, MatchResult};
ghost use Rattle.byte_text.specs.declared.texts.TheConstants.{MOST_TEXT_BYTES};
ghost use Rattle.gcode_lines.specs.Job.{entry_at, most_bytes};
ghost use Rattle.gcode_lines.specs.Commands.{file_line, fault_at};
ghost use Rattle.gcode_lines.specs.Packed.{places_after};

use crate::fault::FileFault;
use crate::line::Line;
use crate::packed_entry::entry_at;
use crate::text::{TextAt, has_control, is_plain, is_skipped, is_too_long, text_in};
use std::alloc::{AllocError, Global};
use std::marker::Model;

// The commands found so far, an entry each, and how many lines hold none.
#[derive(Drop)]
pub(crate) struct Places {
    entries: Vec<u64>,
    skipped: u32,
}

impl Model for Places {
    ghost use Rattle.gcode_lines.specs.Packed.{PlacesData};

    ghost Value = { PlacesData };

    ghost view = { λ places. record { entries = places.entries.items; skipped = places.skipped } };
}

impl Places {
    // No line was read yet.
    pub(crate) fn new(alloc: Global) -> Self
        ensures { result ≡ record { entries = []; skipped = 0 } }
    {
        Places {
            entries: Vec::new(alloc),
            skipped: 0,
        }
    }

    // The entries of the commands.
    pub(crate) fn entries(&self) -> &[u64]
        ensures { result.now ≡ self.now.entries }
    {
        self.entries.as_slice()
    }

    // How many lines hold no command.
    pub(crate) fn skipped(&self) -> u32
        ensures { result ≡ self.now.skipped }
    {
        self.skipped
    }

    // Adds a command's entry. After an error all is as before.
    fn push(&mut self, entry: u64) -> Result<(), AllocError>
        ensures { MatchResult result
            (λ _. self.new ≡ record self.old { entries = self.old.entries ++ entry ∷ [] })
            (λ _. self.new ≡ self.old) }
    {
        match self.entries.push(entry) {
            Ok(()) => Ok(()),
            Err(_) => Err(AllocError),
        }
    }

    // Counts a line that holds no command.
    fn skip(&mut self)
        requires { self.old.skipped < most_bytes }
        ensures { self.new ≡ record self.old { skipped = self.old.skipped + 1 } }
    {
        self.skipped += 1;
    }

    // Adds the text of a line as a command.
    fn add(&mut self, found: TextAt<'_>, number: u32, place: usize) -> Result<(), FileFault>
        requires short { length found.text.now ≤ MOST_TEXT_BYTES }
        requires counted { number ≤ most_bytes }
        requires inside { place + found.begin ≤ most_bytes }
        ensures { MatchResult result
            (λ _. self.new ≡ record self.old {
              entries = self.old.entries ++ entry_at (place + found.entry.begin)
                  (length found.entry.text.now) number ∷ [];
            })
            (λ fault. (fault ≡ FileFault.NoMemory) × (self.new ≡ self.old)) }
    {
        match self.push(entry_at(place + found.begin, found.text.len(), number)) {
            Ok(()) => Ok(()),
            Err(AllocError) => Err(FileFault::NoMemory),
        }
    }

    // Reads a line by its number and the place of its first byte. After a fault all is as before.
    pub(crate) fn read_line(
        &mut self,
        line: Line<'_>,
        number: u32,
        place: usize,
    ) -> Result<(), FileFault>
        requires few { self.old.skipped < most_bytes }
        requires counted { number ≤ most_bytes }
        requires inside { place + length line.bytes.now ≤ most_bytes }
        ensures { let line = file_line line.entry.bytes.now number place in MatchResult result
            (λ _. (fault_at line ≡ None) × (self.new ≡ places_after self.old line))
            (λ fault. ((fault ≡ FileFault.NoMemory) ⊎ (fault_at line ≡ Some fault))
            × (self.new ≡ self.old)) }
    {
        let found = text_in(line);
        if is_plain(found.text) {
            return self.add(found, number, place);
        }
        if is_skipped(found.text) {
            self.skip();
            return Ok(());
        }
        if is_too_long(found.text) {
            return Err(FileFault::TooLong { line: number });
        }
        if has_control(found.text) {
            return Err(FileFault::ControlByte { line: number });
        }
        self.add(found, number, place)
    }
}
