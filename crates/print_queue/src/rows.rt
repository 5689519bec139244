//! Searches in the rows of a queue.
ghost use Rattle.std.specs.Prelude.{◌≡◌, ◌≤◌, ℕ, Some, length, count_by};
ghost use Rattle.std.specs.List.{prefix_len, position_or_len};
ghost use Rattle.print_queue.specs.Rows.{is_before, is_key, is_of, fits, last_arrival};

use crate::QueueEntry;
use byte_text::Name;

/// The place of this user's entry of this name, the number of rows if there is none.
pub fn place_of(rows: &[QueueEntry], user: &Name, name: &Name) -> usize
    ensures place { result ≡ position_or_len (is_key user.now name.now) rows.now }
    ensures within { result ≤ length rows.now }
{
    rows.iter()
        .take_while(|row| !row.is_key(user, name))
        .count()
}

/// The place of the first entry that fits, the number of rows if none does.
pub fn place_of_fitting(rows: &[QueueEntry], material: &Name) -> usize
    ensures place { result ≡ position_or_len (fits material.now) rows.now }
    ensures within { result ≤ length rows.now }
{
    rows.iter().take_while(|row| !row.fits(material)).count()
}

/// The place for an entry: how many rows are printed before it.
pub fn place_for(rows: &[QueueEntry], entry: &QueueEntry) -> usize
    ensures place { result ≡ prefix_len (λ row. is_before row entry.now) rows.now }
    ensures within { result ≤ length rows.now }
{
    rows.iter().take_while(|row| row.is_before(entry)).count()
}

/// How many entries a user has.
pub fn count_of(rows: &[QueueEntry], user: &Name) -> usize
    ensures { result ≡ count_by (is_of (Some user.now)) rows.now }
{
    rows.iter().filter(|row| row.is_of(user)).count()
}

/// The greatest arrival, 0 of no rows.
pub fn last_arrival(rows: &[QueueEntry]) -> u32
    ensures { result ≡ last_arrival rows.now }
{
    rows.iter().fold(0, |last: u32, row| last.max(row.arrival))
}
