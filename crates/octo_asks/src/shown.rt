//! What answers show of files, users, queue entries, prints and heaters.
ghost use Rattle.std.specs.Prelude.{◌≡◌};
ghost use Rattle.octo_asks.specs.Shown.{whole_degrees, shown_heat, shown_user, shown_entry, shown_print};

use byte_text::Name;
use marlin_reply::Heat;
use octo_access::{GroupNames, UserRow};
use octo_outside::ItemList;
use print_queue::{Outcome, PrintRow, QueueEntry};

/// A heater's temperatures in whole degrees Celsius, rounded toward zero.
#[derive(Clone, Copy, Debug, PartialEq, Eq)]
pub struct ShownHeat {
    pub actual: i64,
    pub target: i64,
}

/// A file and its size in bytes.
#[derive(Drop)]
pub struct ShownFile {
    pub name: Name,
    pub size: u64,
}

/// How far a print is: the issued file commands in percent, rounded down, and the place of the next command in bytes.
#[derive(Clone, Copy, Debug, PartialEq, Eq)]
pub struct Progress {
    /// 0 to 100.
    pub completion: u8,
    pub place: u32,
}

/// A user without the key.
#[derive(Drop)]
pub struct ShownUser {
    pub name: Name,
    pub groups: GroupNames,
    pub active: bool,
}

/// An entry of the queue without its arrival.
#[derive(Drop)]
pub struct ShownEntry {
    pub user: Name,
    pub name: Name,
    pub file: Name,
    /// 0 to 100.
    pub priority: u8,
    /// The number of copies that were asked for, 1 to 100.
    pub copies: u8,
    /// The number of copies that were not started yet, 1 to `copies`.
    pub left: u8,
    pub material: Name,
}

/// The record of a print.
#[derive(Drop)]
pub struct ShownPrint {
    pub number: u32,
    pub user: Name,
    pub file: Name,
    /// The number of commands in the file.
    pub commands: u32,
    pub outcome: Outcome,
}

/// Files in a list.
pub type ShownFileList = ItemList<ShownFile>;

/// Users in a list.
pub type ShownUserList = ItemList<ShownUser>;

/// Entries of the queue in a list.
pub type ShownEntryList = ItemList<ShownEntry>;

/// Prints in a list.
pub type ShownPrintList = ItemList<ShownPrint>;

// Millionths of a degree in a degree.
const DEGREE: i64 = 1_000_000;

// Millionths of a degree in whole degrees.
fn whole_degrees(micro: i64) -> i64
    ensures { result ≡ whole_degrees micro }
{
    micro / DEGREE
}

impl ShownHeat {
    /// What is shown of a heater.
    pub fn of(heat: &Heat) -> ShownHeat
        ensures { result ≡ shown_heat heat.now }
    {
        ShownHeat {
            actual: whole_degrees(heat.actual),
            target: whole_degrees(heat.target),
        }
    }
}

impl ShownUser {
    /// What is shown of a user; takes no memory.
    pub fn of(row: &UserRow) -> ShownUser
        ensures { result ≡ shown_user row.now }
    {
        let UserRow {
            name,
            groups,
            active,
            ..
        } = row.copy();
        ShownUser {
            name,
            groups,
            active,
        }
    }
}

impl ShownEntry {
    /// What is shown of an entry; takes no memory.
    pub fn of(entry: &QueueEntry) -> ShownEntry
        ensures { result ≡ shown_entry entry.now }
    {
        ShownEntry {
            user: entry.user.copy(),
            name: entry.name.copy(),
            file: entry.file.copy(),
            priority: entry.priority,
            copies: entry.copies,
            left: entry.left,
            material: entry.material.copy(),
        }
    }
}

impl ShownPrint {
    /// What is shown of a print; takes no memory.
    pub fn of(row: &PrintRow) -> ShownPrint
        ensures { result ≡ shown_print row.now }
    {
        ShownPrint {
            number: row.number,
            user: row.user.copy(),
            file: row.file.copy(),
            commands: row.commands,
            outcome: row.outcome,
        }
    }
}
