//! Why settings are refused.
ghost use Rattle.std.specs.Prelude.{◌≡◌, ◌≤◌, length};
ghost use Rattle.byte_text.specs.declared.name.TheConstants.{MOST_NAME_BYTES};
ghost use Rattle.octo_settings.specs.declared.fault.SettingsFault.TheVariants as fault;

use byte_text::Name;
use job_desk::Point;
use thiserror::Error;

/// Why settings are refused: the first fault in the order of the keys.
#[derive(Debug, Drop, Error)]
pub enum SettingsFault {
    /// They are over 1,048,576 bytes, or aren't TOML.
    #[error("settings: not toml")]
    NotToml,
    /// A required key is missing.
    #[error("settings: {}: missing", .key.as_str())]
    Missing { key: Name },
    /// A key's value is of the wrong kind.
    #[error("settings: {}: wrong kind", .key.as_str())]
    WrongKind { key: Name },
    /// A key's value is out of its range.
    #[error("settings: {}: out of range", .key.as_str())]
    OutOfRange { key: Name },
    /// A script has a template, which isn't carried out.
    #[error("settings: script {script:?}: template")]
    Template { script: Point },
    /// A script has a command that is too hot, in that line, counted from 1.
    #[error("settings: script {script:?}: line {line}: too hot")]
    TooHot { script: Point, line: u32 },
    /// Out of memory.
    #[error("out of memory")]
    NoMemory,
}

pub(crate) fn missing(key: &str) -> SettingsFault
    requires { length key.now ≤ MOST_NAME_BYTES }
    ensures { result ≡ fault.Missing key.now }
{
    SettingsFault::Missing {
        key: Name::of_short(key),
    }
}

pub(crate) fn wrong_kind(key: &str) -> SettingsFault
    requires { length key.now ≤ MOST_NAME_BYTES }
    ensures { result ≡ fault.WrongKind key.now }
{
    SettingsFault::WrongKind {
        key: Name::of_short(key),
    }
}

pub(crate) fn out_of_range(key: &str) -> SettingsFault
    requires { length key.now ≤ MOST_NAME_BYTES }
    ensures { result ≡ fault.OutOfRange key.now }
{
    SettingsFault::OutOfRange {
        key: Name::of_short(key),
    }
}
