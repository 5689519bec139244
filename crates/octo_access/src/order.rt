//! Users in the order of their names.
ghost use Rattle.std.specs.Prelude.{◌≡◌, MatchBool, IsPermutation};
ghost use Rattle.octo_access.specs.Rows.{IsByName};
ghost use Rattle.std.specs.Ordering.{nat_cmp};
ghost use Rattle.std.specs.Cmp.Lexicographic.{slice_cmp};

use crate::row::UserRow;
use std::cmp::Ordering;

// The order of two users: the order of the bytes of their names.
fn compared(row: &UserRow, other: &UserRow) -> Ordering
    ensures { result ≡ slice_cmp nat_cmp row.now.name other.now.name }
{
    row.name.as_bytes().cmp(other.name.as_bytes())
}

// Whether users are in the order of their names.
fn are_by_name(rows: &[UserRow]) -> bool
    ensures { MatchBool result (IsByName rows.now) (¬ (IsByName rows.now)) }
{
    for place in 1..rows.len() {
        if rows[place].name.is_before(&rows[place - 1].name) {
            return false;
        }
    }
    true
}

fn sort_by_name(rows: &mut [UserRow])
    ensures permutation { IsPermutation rows.old rows.new }
    ensures ordered { IsByName rows.new }
{
    rows.sort_unstable_by(|row, other| compared(row, other));
}

// Puts users in the order of their names. If they are in it, nothing changes.
pub(crate) fn put_in_order(rows: &mut [UserRow])
    ensures permutation { IsPermutation rows.old rows.new }
    ensures ordered { IsByName rows.new }
    ensures same { IsByName rows.old → rows.new ≡ rows.old }
{
    if !are_by_name(rows) {
        sort_by_name(rows);
    }
}
