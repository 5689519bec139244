//! Values of a TOML document as settings have them.
ghost use Rattle.std.specs.Prelude.{◌≡◌, ◌≤◌, ◌<◌, length, IfOk, MatchResult, Ok, Err};
ghost use Rattle.byte_text.specs.declared.name.TheConstants.{MOST_NAME_BYTES};
ghost use Rattle.toml.specs.Data.{get_member};
ghost use Rattle.toml.specs.View.{table_view};
ghost use Rattle.octo_settings.specs.Seen.{members_or, data_of_value};
ghost use Rattle.octo_settings.specs.Values.{section, whole};

use crate::fault::{SettingsFault, out_of_range, wrong_kind};
use toml::{Table, Value};

// The value at a key of a table.
pub(crate) fn value_of<'a>(table: &'a Table, key: &str) -> Option<&'a Value>
    ensures { data_of_value result ≡ get_member key.now (table_view table.now) }
{
    table.get(key)
}

// The value at a key of a table that may be missing.
pub(crate) fn at<'a>(table: Option<&'a Table>, key: &str) -> Option<&'a Value>
    ensures { data_of_value result ≡ get_member key.now (members_or table.entry) }
{
    match table {
        Some(table) => value_of(table, key),
        None => None,
    }
}

// A value as a table, `None` if it is missing.
pub(crate) fn read_section<'a>(
    key: &str,
    value: Option<&'a Value>,
) -> Result<Option<&'a Table>, SettingsFault>
    requires { length key.now ≤ MOST_NAME_BYTES }
    ensures { MatchResult result
        (λ table. section key.now (data_of_value value.entry) ≡ Ok (members_or table))
        (λ fault. section key.now (data_of_value value.entry) ≡ Err fault) }
{
    match value {
        None => Ok(None),
        Some(Value::Table(table)) => Ok(Some(table)),
        Some(_) => Err(wrong_kind(key)),
    }
}

// A whole number from `least` to `most`, `default` if it is missing.
pub(crate) fn read_whole(
    key: &str,
    least: u64,
    most: u64,
    default: u64,
    value: Option<&Value>,
) -> Result<u64, SettingsFault>
    requires short { length key.now ≤ MOST_NAME_BYTES }
    requires default { default ≤ most }
    ensures value { result ≡ whole key.now least most default (data_of_value value.entry) }
    ensures within { IfOk result (λ number. number ≤ most) }
{
    let number = match value {
        None => return Ok(default),
        Some(Value::Integer(number)) => *number,
        Some(_) => return Err(wrong_kind(key)),
    };
    match u64::try_from(number) {
        Ok(number) if least <= number && number <= most => Ok(number),
        _ => Err(out_of_range(key)),
    }
}
