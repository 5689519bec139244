//! Places of users in a list.
ghost use Rattle.std.specs.Prelude.{◌≡◌, ◌≤◌, length};
ghost use Rattle.std.specs.List.{prefix_len, position_or_len};
ghost use Rattle.octo_access.specs.Rows.{is_before, is_named};

use crate::row::UserRow;
use byte_text::Name;

/// The place of the user of that name, the number of users if there is none.
pub fn place_of_name(rows: &[UserRow], name: &Name) -> usize
    ensures place { result ≡ position_or_len (is_named name.now) rows.now }
    ensures within { result ≤ length rows.now }
{
    rows.iter().take_while(|row| !row.is_named(name)).count()
}

/// The place for a new user of that name: how many users come before it, by the bytes of their names.
pub fn place_for_name(rows: &[UserRow], name: &Name) -> usize
    ensures place { result ≡ prefix_len (λ row. is_before row.name name.now) rows.now }
    ensures within { result ≤ length rows.now }
{
    rows.iter()
        .take_while(|row| row.name.is_before(name))
        .count()
}
