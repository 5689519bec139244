//! The record of a print.
ghost use Rattle.std.specs.Prelude.{◌≡◌};

use crate::Outcome;
use byte_text::Name;
use octo_outside::ItemList;

/// The record of a print, which is kept after its end.
#[derive(Drop)]
pub struct PrintRow {
    /// The number of the print; the first one has 1.
    pub number: u32,
    /// The user for whom it was started.
    pub user: Name,
    pub file: Name,
    /// The number of commands in the file.
    pub commands: u32,
    pub outcome: Outcome,
}

/// Records of prints.
pub type PrintList = ItemList<PrintRow>;

impl PrintRow {
    /// The same record again; takes no memory.
    pub fn copy(&self) -> PrintRow
        ensures { result ≡ self.now }
    {
        PrintRow {
            number: self.number,
            user: self.user.copy(),
            file: self.file.copy(),
            commands: self.commands,
            outcome: self.outcome,
        }
    }
}
