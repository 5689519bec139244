//! Names of bytes that are ASCII.
ghost use Rattle.std.specs.Prelude.{◌≡◌, ◌≤◌, length};
ghost use Rattle.std.specs.Str.{IsAscii};
ghost use Rattle.byte_text.specs.declared.name.TheConstants.{MOST_NAME_BYTES};

use byte_text::Name;
use std::str;

// A name of bytes below 128.
pub(crate) fn ascii_name(bytes: &[u8]) -> Name
    requires short { length bytes.now ≤ MOST_NAME_BYTES }
    requires ascii { IsAscii bytes.now }
    ensures { result ≡ bytes.now }
{
    match str::from_utf8(bytes) {
        Ok(text) => Name::of_short(text),
        Err(_) => unreachable!(),
    }
}
