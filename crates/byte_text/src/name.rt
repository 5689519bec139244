//! Names: of a port, a file, a user, a group, a material or a queue entry.
ghost use Rattle.std.specs.Prelude.{◌≡◌, ◌<◌, ◌≤◌, ◌↔◌, ◌^◌, ℕ, List, [], length, IsTrue, MatchOption, MatchResult};
ghost use Rattle.std.specs.List.{All};
ghost use Rattle.std.specs.Cmp.Lexicographic.{slice_cmp};
ghost use Rattle.std.specs.Ordering.{is_lt, nat_cmp};
ghost use Rattle.std.specs.Str.{bytes_eq};

use arrayvec::ArrayString;
use std::cmp::Ordering;
use std::marker::Model;

/// How many bytes a name has at most.
pub const MOST_NAME_BYTES: usize = 100;

/// A text has over 100 bytes, so it isn't a name.
#[derive(Clone, Copy, Debug, PartialEq, Eq)]
pub struct LongName;

/// A name of at most 100 bytes of UTF-8, seen as its bytes.
#[derive(Debug, Drop)]
pub struct Name {
    text: ArrayString<MOST_NAME_BYTES>,
}

impl Model for Name {
    ghost use Rattle.std.specs.Prelude.{List, ℕ};

    ghost Value = { List ℕ };

    ghost view = { λ n. n.text.bytes };
}

impl Default for Name {
    ghost is_default = { λ n. n ≡ [] };

    fn default() -> Self {
        Name::new()
    }
}

impl Name {
    /// The empty name.
    pub fn new() -> Name
        ensures { result ≡ [] }
    {
        Name {
            text: ArrayString::new(),
        }
    }

    /// The name of this text, or `None` if it has over 100 bytes.
    pub fn from_text(text: &str) -> Option<Name>
        ensures { MatchOption result (MOST_NAME_BYTES < length text.now)
            (λ name. (name ≡ text.now) × (length text.now ≤ MOST_NAME_BYTES)) }
    {
        match ArrayString::from(text) {
            Ok(text) => Some(Name { text }),
            Err(_) => None,
        }
    }

    /// The name of this text, or that it is too long.
    pub fn of(text: &str) -> Result<Name, LongName>
        ensures { MatchResult result
            (λ name. (name ≡ text.now) × (length text.now ≤ MOST_NAME_BYTES))
            (λ _. MOST_NAME_BYTES < length text.now) }
    {
        match Name::from_text(text) {
            Some(name) => Ok(name),
            None => Err(LongName),
        }
    }

    /// The name of a text that isn't too long.
    pub fn of_short(text: &str) -> Name
        requires { length text.now ≤ MOST_NAME_BYTES }
        ensures { result ≡ text.now }
    {
        match Name::from_text(text) {
            Some(name) => name,
            None => unreachable!(),
        }
    }

    /// The same name again; takes no memory.
    pub fn copy(&self) -> Name
        ensures { result ≡ self.now }
    {
        Name { text: self.text }
    }

    /// Whether both names have the same bytes.
    pub fn is(&self, other: &Name) -> bool
        ensures same { IsTrue result ↔ (self.now ≡ other.now) }
        ensures bytes { result ≡ bytes_eq self.now other.now }
    {
        self.text == other.text
    }

    /// Whether its bytes come before those of the other, in the order of bytes.
    pub fn is_before(&self, other: &Name) -> bool
        ensures { result ≡ is_lt (slice_cmp nat_cmp self.now other.now) }
    {
        self.as_bytes().cmp(other.as_bytes()) == Ordering::Less
    }

    /// The name as a text of at most 100 bytes.
    pub fn as_str(&self) -> &str
        ensures bytes { result.now ≡ self.now }
        ensures short { length result.now ≤ MOST_NAME_BYTES }
    {
        self.text.as_str()
    }

    /// The bytes of the name.
    pub fn as_bytes(&self) -> &[u8]
        ensures bytes { result.now ≡ self.now }
        ensures short { length result.now ≤ MOST_NAME_BYTES }
    {
        self.text.as_str().as_bytes()
    }
}
