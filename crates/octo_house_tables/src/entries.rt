//! Entries of the queue as requests name them.
ghost use Rattle.std.specs.Prelude.{◌≡◌, ◌≤◌, is_some};
ghost use Rattle.print_queue.specs.Rows.{users_entry};
ghost use Rattle.print_queue.specs.Lawful.{IsWholeRow};
ghost use Rattle.octo_house_rules.specs.Rows.{asked_entry};

use byte_text::Name;
use print_queue::{MOST_COPIES, MOST_PRIORITY, QueueEntry, place_of};

/// The entry that is asked for: a priority above 100 counts as 100, and copies as the nearest number from 1 to 100.
pub fn asked_entry(
    user: &Name,
    name: &Name,
    file: &Name,
    priority: u8,
    copies: u8,
    material: &Name,
) -> QueueEntry
    ensures entry { result ≡ asked_entry user.now name.now file.now priority copies material.now }
    ensures whole { IsWholeRow result }
    ensures priority { result.priority ≤ 100 }
{
    let copies = copies.min(MOST_COPIES).max(1);
    QueueEntry {
        user: user.copy(),
        name: name.copy(),
        file: file.copy(),
        priority: priority.min(MOST_PRIORITY),
        copies,
        left: copies,
        material: material.copy(),
        arrival: 0,
    }
}

/// Whether this user has an entry of this name.
#[tactic(auto, using(std::proofs::lemmas::List::Folds::find_at, std::proofs::lemmas::Option::slice_get_past, std::proofs::lemmas::Option::slice_get_read))]
pub fn has_entry(rows: &[QueueEntry], user: &Name, name: &Name) -> bool
    ensures { result ≡ is_some (users_entry user.now name.now rows.now) }
{
    let place = place_of(rows, user, name);
    if place == rows.len() {
        return false;
    }
    true
}
