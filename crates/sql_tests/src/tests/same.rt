//! Whether the rows of tables are equal.
use octo_access::UserRow;
use octo_keeper::Tables;
use print_queue::{PrintRow, QueueEntry};

fn are_same_groups(a: &UserRow, b: &UserRow) -> bool {
    if a.groups.len() != b.groups.len() {
        return false;
    }
    for (x, y) in a.groups.as_slice().iter().zip(b.groups.as_slice()) {
        if !x.is(y) {
            return false;
        }
    }
    true
}

fn is_same_user(a: &UserRow, b: &UserRow) -> bool {
    a.name.is(&b.name) && a.digest == b.digest && a.active == b.active && are_same_groups(a, b)
}

fn is_same_entry(a: &QueueEntry, b: &QueueEntry) -> bool {
    a.is_key(&b.user, &b.name) && a.is_same(b) && a.left == b.left && a.arrival == b.arrival
}

fn is_same_print(a: &PrintRow, b: &PrintRow) -> bool {
    a.number == b.number
        && a.user.is(&b.user)
        && a.file.is(&b.file)
        && a.commands == b.commands
        && a.outcome == b.outcome
}

fn are_same_users(a: &[UserRow], b: &[UserRow]) -> bool {
    if a.len() != b.len() {
        return false;
    }
    for (x, y) in a.iter().zip(b) {
        if !is_same_user(x, y) {
            return false;
        }
    }
    true
}

fn are_same_entries(a: &[QueueEntry], b: &[QueueEntry]) -> bool {
    if a.len() != b.len() {
        return false;
    }
    for (x, y) in a.iter().zip(b) {
        if !is_same_entry(x, y) {
            return false;
        }
    }
    true
}

fn are_same_prints(a: &[PrintRow], b: &[PrintRow]) -> bool {
    if a.len() != b.len() {
        return false;
    }
    for (x, y) in a.iter().zip(b) {
        if !is_same_print(x, y) {
            return false;
        }
    }
    true
}

/// Whether both hold the same rows in each table, in the same order.
pub fn are_same(a: &Tables, b: &Tables) -> bool {
    are_same_users(a.users.as_slice(), b.users.as_slice())
        && are_same_entries(a.queue.as_slice(), b.queue.as_slice())
        && are_same_prints(a.prints.as_slice(), b.prints.as_slice())
}
