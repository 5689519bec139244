//! Values of a row.
ghost use Rattle.std.specs.Prelude.{◌≡◌, ◌≢◌, ℤ, pos, if◌then◌else◌, MatchOption};
ghost use Rattle.sqlite_value.specs.Order.{column};
ghost use Rattle.sqlite_value.specs.declared.value.Value.TheVariants.{Int, Text, Blob};
ghost use Rattle.octo_keeper_sql.specs.Holds.{HoldsBelow, HoldsDigest, HoldsName, HoldsText};

use byte_text::Name;
use sqlite::Row;
use sqlite::types::ValueRef;

/// The number of a column.
pub fn number_at(row: &Row, place: usize) -> Option<i64>
    ensures { MatchOption result ((number : ℤ) → column row.now place ≢ Int number)
        (λ number. column row.now place ≡ Int number) }
{
    match row.get_ref(place) {
        Ok(ValueRef::Int(number)) => Some(number),
        _ => None,
    }
}

/// A number of at most 255.
pub fn u8_at(row: &Row, place: usize) -> Option<u8>
    ensures { MatchOption result (¬ HoldsBelow 256 (column row.now place))
        (λ number. column row.now place ≡ Int (pos number)) }
{
    u8::try_from(number_at(row, place)?).ok()
}

/// A number of at most 4,294,967,295.
pub fn u32_at(row: &Row, place: usize) -> Option<u32>
    ensures { MatchOption result (¬ HoldsBelow 4294967296 (column row.now place))
        (λ number. column row.now place ≡ Int (pos number)) }
{
    u32::try_from(number_at(row, place)?).ok()
}

/// A column of 0 or 1.
pub fn flag_at(row: &Row, place: usize) -> Option<bool>
    ensures { MatchOption result (¬ HoldsBelow 2 (column row.now place))
        (λ flag. column row.now place ≡ Int (if flag then pos 1 else pos 0)) }
{
    match number_at(row, place)? {
        0 => Some(false),
        1 => Some(true),
        _ => None,
    }
}

/// The text of a column.
pub fn text_at(row: &Row, place: usize) -> Option<&str>
    ensures { MatchOption result (¬ HoldsText (column row.now place))
        (λ text. column row.now place ≡ Text text.now) }
{
    match row.get_ref(place) {
        Ok(ValueRef::Text(bytes)) => std::str::from_utf8(bytes).ok(),
        _ => None,
    }
}

/// A text of at most 100 bytes.
pub fn name_at(row: &Row, place: usize) -> Option<Name>
    ensures { MatchOption result (¬ HoldsName (column row.now place))
        (λ name. column row.now place ≡ Text name) }
{
    Name::from_text(text_at(row, place)?)
}

/// The 32 bytes of a column.
pub fn digest_at(row: &Row, place: usize) -> Option<[u8; 32]>
    ensures { MatchOption result (¬ HoldsDigest (column row.now place))
        (λ digest. column row.now place ≡ Blob digest) }
{
    match row.get_ref(place) {
        Ok(ValueRef::Blob(bytes)) => bytes.try_into().ok(),
        _ => None,
    }
}
