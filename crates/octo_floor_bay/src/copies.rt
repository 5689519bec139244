//! The copies that are left.
ghost use Rattle.std.specs.Prelude.{◌≡◌};
ghost use Rattle.octo_floor_bay.specs.Stock.{copies_left};

use print_queue::QueueEntry;

/// How many copies of these entries were not started yet.
pub fn copies_left(entries: &[QueueEntry]) -> u64
    ensures { result ≡ copies_left entries.now }
{
    let mut left = 0;
    for entry in entries {
        left += u64::from(entry.left);
    }
    left
}
