//! Names of users, groups, queue entries and materials.
ghost use Rattle.std.specs.Prelude.{◌≡◌};
ghost use Rattle.std.specs.List.{list_all};
ghost use Rattle.octo_access.specs.Changes.{is_among};
ghost use Rattle.octo_access.specs.Names.{is_name_byte, is_name, name_of};

use byte_text::{MOST_NAME_BYTES, Name};

/// Whether a name may have the byte: a letter, a digit or one of `.`, `_`, `-`, `(`, `)`, `+`.
pub fn is_name_byte(byte: u8) -> bool
    ensures { result ≡ is_name_byte byte }
{
    byte.is_ascii_alphanumeric() || b"._-()+".contains(&byte)
}

fn are_name_bytes(bytes: &[u8]) -> bool
    ensures { result ≡ list_all is_name_byte bytes.now }
{
    bytes.iter().all(|byte| is_name_byte(*byte))
}

fn is_name(text: &str) -> bool
    ensures { result ≡ is_name text.now }
{
    !text.is_empty() && text.len() <= MOST_NAME_BYTES && are_name_bytes(text.as_bytes())
}

/// A text as a name: 1 to 100 letters, digits and `.`, `_`, `-`, `(`, `)`, `+`.
pub fn read_name(text: &str) -> Option<Name>
    ensures { result ≡ name_of text.now }
{
    if is_name(text) {
        return Name::from_text(text);
    }
    None
}

/// Whether a name is among others.
pub fn is_among(name: &Name, names: &[Name]) -> bool
    ensures { result ≡ is_among name.now names.now }
{
    names.iter().any(|other| other.is(name))
}
