//! Sums over the lists of answers.
use octo_asks::{ShownEntry, ShownFile, ShownPrint, ShownUser};
use print_queue::Outcome;

// The bytes of all files.
pub(super) fn size_sum(files: &[ShownFile]) -> u64 {
    let mut sum: u64 = 0;
    for file in files {
        sum = sum.wrapping_add(file.size);
    }
    sum
}

// How many copies of all entries are left.
pub(super) fn left_sum(entries: &[ShownEntry]) -> u64 {
    let mut sum: u64 = 0;
    for entry in entries {
        sum = sum.wrapping_add(entry.left as u64);
    }
    sum
}

// How many users are active.
pub(super) fn active_users(users: &[ShownUser]) -> usize {
    let mut count: usize = 0;
    for user in users {
        if user.active {
            count = count.wrapping_add(1);
        }
    }
    count
}

// The outcome of the first print.
pub(super) fn newest(prints: &[ShownPrint]) -> Option<Outcome> {
    match prints.first() {
        Some(print) => Some(print.outcome),
        None => None,
    }
}
