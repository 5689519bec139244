//! The entry that a printer starts next.
ghost use Rattle.std.specs.Prelude.{◌≡◌, option_map, find};
ghost use Rattle.std.specs.List.{list_any};
ghost use Rattle.print_queue.specs.Lawful.{IsLawful, NextOf};
ghost use Rattle.octo_floor_bay.specs.Stock.{was_passed, may_start, startable};

use byte_text::Name;
use print_queue::QueueEntry;

// Whether an entry was passed over.
fn was_passed(passed: &[u32], entry: &QueueEntry) -> bool
    ensures { result ≡ was_passed passed.now entry.now }
{
    passed.iter().any(|arrival| *arrival == entry.arrival)
}

// The first entry that fits and wasn't passed over.
fn first_start<'a>(
    entries: &'a [QueueEntry],
    passed: &[u32],
    material: &Name,
) -> Option<&'a QueueEntry>
    ensures { option_map (λ entry. entry.now) result
        ≡ find (may_start passed.now material.now) entries.now }
{
    for entry in entries {
        if entry.fits(material) && !was_passed(passed, entry) {
            return Some(entry);
        }
    }
    None
}

/// The entry that a printer with this material starts next, of the entries of a queue: of those that fit and whose arrival is
/// none of `passed` the one that is printed first. Takes no memory.
#[tactic(auto, using(crate::proofs::Starts::start_is))]
pub fn next_start<'a>(
    entries: &'a [QueueEntry],
    passed: &[u32],
    material: &Name,
) -> Option<&'a QueueEntry>
    requires { IsLawful entries.now }
    ensures { NextOf (startable passed.now entries.now) material.now
        (option_map (λ entry. entry.now) result) }
{
    first_start(entries, passed, material)
}
