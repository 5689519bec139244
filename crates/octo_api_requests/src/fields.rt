//! The fields of JSON bodies, one function for each kind. A missing field may have a default; a null isn't missing.
ghost use Rattle.std.specs.Prelude.{◌≡◌, None, Some, option_map, codes};
ghost use Rattle.serde_json.specs.View.{view};
ghost use Rattle.octo_api_commands.specs.Members.{whole_at};
ghost use Rattle.octo_api_requests.specs.Fields.{as_name, name_at, file_at, as_key};

use byte_text::Name;
use octo_access::{read_file_name, read_name};
use octo_api_commands::as_whole_in;
use octo_api_routes::is_key;
use print_queue::any_material;
use serde_json::Value;

// Degrees of 16 bits.
pub(crate) fn degrees_at(body: &Value, key: &str) -> Option<u16>
    ensures { result ≡ whole_at key.now 0 65535 None (view body.now) }
{
    let found = body.get(key)?;
    let number = as_whole_in(found, 0, 65535)?;
    Some(number as u16)
}

// A number up to 100, with a default.
pub(crate) fn small_at(body: &Value, key: &str, least: u8, default: u8) -> Option<u8>
    ensures { result ≡ whole_at key.now least 100 (Some default) (view body.now) }
{
    match body.get(key) {
        Some(found) => {
            let number = as_whole_in(found, u64::from(least), 100)?;
            Some(number as u8)
        }
        None => Some(default),
    }
}

// A value as a name.
pub(crate) fn as_name(found: &Value) -> Option<Name>
    ensures { result ≡ as_name (view found.now) }
{
    read_name(found.as_str()?)
}

pub(crate) fn name_at(body: &Value, key: &str) -> Option<Name>
    ensures { result ≡ name_at key.now None (view body.now) }
{
    as_name(body.get(key)?)
}

// The name of a file.
pub(crate) fn file_at(body: &Value, key: &str) -> Option<Name>
    ensures { result ≡ file_at key.now (view body.now) }
{
    read_file_name(body.get(key)?.as_str()?)
}

// A material, `any` without the field.
pub(crate) fn material_at(body: &Value) -> Option<Name>
    ensures { result ≡ name_at (codes "material") (Some (codes "any")) (view body.now) }
{
    match body.get("material") {
        Some(found) => as_name(found),
        None => Some(any_material()),
    }
}

// A value as a caller's key.
pub(crate) fn as_key(found: &Value) -> Option<&str>
    ensures { option_map (λ text. text.now) result ≡ as_key (view found.now) }
{
    let text = found.as_str()?;
    if is_key(text) {
        return Some(text);
    }
    None
}
