//! Whether tables are those that a host can begin with.
ghost use Rattle.std.specs.Prelude.{◌≡◌, ◌+◌, true, Some, count_by, IsTrue};
ghost use Rattle.std.specs.List.{list_all};
ghost use Rattle.octo_access.specs.Rows.{is_named, has_digest};
ghost use Rattle.print_queue.specs.Rows.{is_of};
ghost use Rattle.octo_keeper.specs.Order.{AreRunsShort};
ghost use Rattle.octo_keeper.specs.Tables.{AreSound};
ghost use Rattle.octo_keeper.specs.Sound.{are_apart, are_numbered_from, are_sound, is_alone, is_apart, is_queue, is_user_list, is_whole, is_within};

use crate::Tables;
use crate::copies::copy_entries;
use crate::order::Order;
use octo_access::{MOST_USERS, UserRow};
use print_queue::{MOST_COPIES, MOST_ENTRIES, PrintRow, QueueEntry};
use std::alloc::Global;

fn is_apart(a: &QueueEntry, b: &QueueEntry) -> bool
    ensures { result ≡ is_apart a.now b.now }
{
    a.arrival != b.arrival && !b.is_key(&a.user, &a.name)
}

fn is_apart_from(row: &QueueEntry, rows: &[QueueEntry]) -> bool
    ensures { result ≡ list_all (is_apart row.now) rows.now }
{
    rows.iter().all(|other| is_apart(row, other))
}

fn are_apart(rows: &[QueueEntry]) -> bool
    ensures { result ≡ are_apart rows.now }
{
    let mut rest = rows;
    while let [row, others @ ..] = rest {
        if !is_apart_from(row, others) {
            return false;
        }
        rest = others;
    }
    true
}

fn is_whole(row: &QueueEntry) -> bool
    ensures { result ≡ is_whole row.now }
{
    1 <= row.left && row.left <= row.copies && row.copies <= MOST_COPIES
}

fn is_within(rows: &[QueueEntry], row: &QueueEntry) -> bool
    ensures { result ≡ is_within rows.now row.now }
{
    rows.iter().filter(|other| other.is_of(&row.user)).count() <= MOST_ENTRIES
}

fn are_whole(rows: &[QueueEntry]) -> bool
    ensures { result ≡ list_all is_whole rows.now }
{
    rows.iter().all(is_whole)
}

fn are_within(rows: &[QueueEntry]) -> bool
    ensures { result ≡ list_all (is_within rows.now) rows.now }
{
    rows.iter().all(|row| is_within(rows, row))
}

// Whether no entry stands as many places behind one of its user as a user may have. In sorted entries, where those of a user stand
// together, it tells that each has few.
fn are_runs_short(rows: &[QueueEntry]) -> bool
    ensures { IsTrue result → AreRunsShort rows.now }
{
    for place in MOST_ENTRIES..rows.len() {
        if rows[place].is_of(&rows[place - MOST_ENTRIES].user) {
            return false;
        }
    }
    true
}

// Whether sorting entries shows that they are apart, and each user has few.
#[tactic(auto, using(crate::proofs::SortedQueue::apart_from_sorts, crate::proofs::SortedQueue::within_from_sorts, crate::proofs::Runs::within_from_runs))]
fn sort_shows_queue(rows: &mut [QueueEntry]) -> bool
    ensures apart { IsTrue result → are_apart rows.old ≡ true }
    ensures within { IsTrue result → list_all (is_within rows.old) rows.old ≡ true }
{
    if !Order::Arrival.tells_apart(rows) {
        return false;
    }
    if !Order::Key.tells_apart(rows) {
        return false;
    }
    are_runs_short(rows)
}

// The same of a sorted copy; false too if out of memory.
fn copy_shows_queue(alloc: Global, rows: &[QueueEntry]) -> bool
    ensures apart { IsTrue result → are_apart rows.now ≡ true }
    ensures within { IsTrue result → list_all (is_within rows.now) rows.now ≡ true }
{
    match copy_entries(alloc, rows) {
        Ok(copy) => {
            let mut sorted = copy.into_items();
            sort_shows_queue(&mut sorted)
        }
        Err(_) => false,
    }
}

// If sorting shows nothing, each two entries are compared, which takes long for many.
fn is_queue(alloc: Global, rows: &[QueueEntry]) -> bool
    ensures { result ≡ is_queue rows.now }
{
    are_whole(rows) && (copy_shows_queue(alloc, rows) || (are_apart(rows) && are_within(rows)))
}

fn count_named(rows: &[UserRow], row: &UserRow) -> usize
    ensures { result ≡ count_by (is_named row.now.name) rows.now }
{
    rows.iter()
        .filter(|other| other.is_named(&row.name))
        .count()
}

fn count_with_digest(rows: &[UserRow], row: &UserRow) -> usize
    ensures { result ≡ count_by (has_digest row.now.digest) rows.now }
{
    rows.iter()
        .filter(|other| other.digest == row.digest)
        .count()
}

fn is_alone(rows: &[UserRow], row: &UserRow) -> bool
    ensures { result ≡ is_alone rows.now row.now }
{
    count_named(rows, row) <= 1 && count_with_digest(rows, row) <= 1
}

fn are_alone(rows: &[UserRow]) -> bool
    ensures { result ≡ list_all (is_alone rows.now) rows.now }
{
    rows.iter().all(|row| is_alone(rows, row))
}

fn is_user_list(rows: &[UserRow]) -> bool
    ensures { result ≡ is_user_list rows.now }
{
    rows.len() <= MOST_USERS && are_alone(rows)
}

fn are_numbered(rows: &[PrintRow]) -> bool
    ensures { result ≡ are_numbered_from 1 rows.now }
{
    let mut number = 1;
    for row in rows {
        if u64::from(row.number) != number {
            return false;
        }
        number += 1;
    }
    true
}

/// Whether a host can begin with these tables: names, keys and arrivals are distinct and within their limits, and the prints are
/// numbered from 1 without a gap. It sorts a copy of the queue; out of memory it compares each two entries.
#[tactic(auto, using(crate::proofs::SoundTables::tables_tell))]
pub fn are_sound(alloc: Global, tables: &Tables) -> bool
    ensures exactly { result ≡ are_sound tables.now }
    ensures sound { IsTrue result → AreSound tables.now }
{
    is_user_list(tables.users.as_slice())
        && is_queue(alloc, tables.queue.as_slice())
        && are_numbered(tables.prints.as_slice())
}
