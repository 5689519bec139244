//! Users as rows of the database.
ghost use Rattle.std.specs.Prelude.{◌≡◌, ◌++◌, ℕ, List, map, string_bytes, MatchOption, IfOk, IsErrOf, OnOk};
ghost use Rattle.std.specs.List.{All};
ghost use Rattle.sqlite.specs.Values.{bound};
ghost use Rattle.octo_keeper.specs.declared.keeper.KeeperFault.TheVariants as fault;
ghost use Rattle.octo_keeper_sql.specs.Holds.{HasGroups, HoldsUser, IsTextOf};
ghost use Rattle.octo_keeper_sql.specs.Rows.{joined, spaced, user_row};

use crate::reading::{digest_at, flag_at, name_at, text_at};
use arrayvec::ArrayVec;
use byte_text::Name;
use octo_access::{GroupNames, UserList, UserRow};
use octo_keeper::KeeperFault;
use sqlite::Row;
use sqlite::types::ValueRef;
use std::alloc::{AllocError, Global};

// Adds each name after a space.
fn add_spaced(text: &mut String, names: &[Name]) -> Result<(), AllocError>
    ensures { OnOk result (string_bytes text.new ≡ string_bytes text.old ++ spaced names.now) }
{
    for name in names {
        text.push_str(" ")?;
        text.push_str(name.as_str())?;
    }
    Ok(())
}

/// The names of groups, with one space between each two. Fails if out of memory.
pub fn text_of_groups(alloc: Global, groups: &[Name]) -> Result<String, AllocError>
    ensures { IfOk result (λ text. string_bytes text ≡ joined groups.now) }
{
    let mut text = String::new(alloc);
    let [first, others @ ..] = groups else {
        return Ok(text);
    };
    text.push_str(first.as_str())?;
    add_spaced(&mut text, others)?;
    Ok(text)
}

/// The values of a user's row; the groups as their text.
pub fn user_values<'a>(user: &'a UserRow, groups: &'a str) -> [ValueRef<'a>; 4]
    requires { groups.now ≡ joined user.now.groups.items }
    ensures { bound result ≡ user_row user.now }
{
    [
        ValueRef::Text(user.name.as_bytes()),
        ValueRef::Blob(user.digest.as_slice()),
        ValueRef::Text(groups.as_bytes()),
        ValueRef::Int(if user.active { 1 } else { 0 }),
    ]
}

// The names of groups of such a text; at most eight, none of them empty.
fn groups_of(text: &str) -> Option<GroupNames>
    ensures { MatchOption result ((groups : List (List ℕ)) → ¬ IsTextOf groups text.now)
        (λ groups. IsTextOf groups.items text.now) }
{
    let mut groups = ArrayVec::new();
    if text.is_empty() {
        return Some(groups);
    }
    for word in text.split(' ') {
        if word.is_empty() || groups.is_full() {
            return None;
        }
        groups.push(Name::from_text(word)?);
    }
    Some(groups)
}

// The user of a row.
#[tactic(auto, using(crate::proofs::Columns::four_columns))]
fn user_of(row: &Row) -> Option<UserRow>
    ensures { MatchOption result (¬ HoldsUser row.now)
        (λ user. (row.now ≡ user_row user) × HasGroups user) }
{
    if row.column_count() != 4 {
        return None;
    }
    Some(UserRow {
        name: name_at(row, 0)?,
        digest: digest_at(row, 1)?,
        groups: groups_of(text_at(row, 2)?)?,
        active: flag_at(row, 3)?,
    })
}

/// The users of rows; a row that holds none is a fault. Fails as well if out of memory.
pub fn users_of(alloc: Global, rows: &[Row]) -> Result<UserList, KeeperFault>
    ensures ok { IfOk result (λ users. map user_row users ≡ rows.now) }
    ensures groups { IfOk result (All HasGroups) }
    ensures failed { IsErrOf result fault.Failed → ¬ All HoldsUser rows.now }
{
    let mut users = UserList::new(alloc);
    for row in rows {
        let Some(user) = user_of(row) else {
            return Err(KeeperFault::Failed);
        };
        users.push(user)?;
    }
    Ok(users)
}
