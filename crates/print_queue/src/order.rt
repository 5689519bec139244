//! The order of entries.
ghost use Rattle.std.specs.Prelude.{◌≡◌, MatchBool};
ghost use Rattle.std.specs.List.Sorted.{IsPermutation, IsSortedBy};
ghost use Rattle.print_queue.specs.Rows.{compared, is_before};
ghost use Rattle.print_queue.specs.Lawful.{IsLawful, IsOrdered, IsSound};

use crate::QueueEntry;
use std::cmp::Ordering;

// How two entries compare in the order of printing.
fn compared(a: &QueueEntry, b: &QueueEntry) -> Ordering
    ensures { result ≡ compared a.now b.now }
{
    if a.is_before(b) {
        Ordering::Less
    } else if b.is_before(a) {
        Ordering::Greater
    } else {
        Ordering::Equal
    }
}

// Whether no entry is to be printed before the one in front of it.
fn are_sorted(entries: &[QueueEntry]) -> bool
    ensures { MatchBool result (IsSortedBy is_before entries.now) (¬ (IsOrdered entries.now)) }
{
    for place in 1..entries.len() {
        if entries[place].is_before(&entries[place - 1]) {
            return false;
        }
    }
    true
}

fn sort_all(entries: &mut [QueueEntry])
    ensures same { IsPermutation entries.old entries.new }
    ensures sorted { IsSortedBy is_before entries.new }
{
    entries.sort_unstable_by(compared);
}

/// Puts entries into the order of printing; takes no memory.
pub fn sort(entries: &mut [QueueEntry])
    requires { IsSound entries.old }
    ensures same { IsPermutation entries.old entries.new }
    ensures lawful { IsLawful entries.new }
    ensures kept { IsOrdered entries.old → entries.new ≡ entries.old }
{
    if !are_sorted(entries) {
        sort_all(entries);
    }
}
