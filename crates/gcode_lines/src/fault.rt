//! Why a file or a line is refused.
use thiserror::Error;

/// Why a file has no job. The line is the first one that is refused, counted from 1.
#[derive(Clone, Copy, Debug, PartialEq, Eq, Error)]
pub enum FileFault {
    /// A command of over 79 bytes.
    #[error("line {line}: too long")]
    TooLong { line: u32 },
    /// A command with a byte below 32 other than tab, or with byte 127.
    #[error("line {line}: control byte")]
    ControlByte { line: u32 },
    /// The file has over 67,108,864 bytes.
    #[error("{bytes} bytes: too large")]
    TooLarge { bytes: u64 },
    /// Memory ran out.
    #[error("out of memory")]
    NoMemory,
}

/// Why a line by itself is not one command: the first of these that holds.
#[derive(Clone, Copy, Debug, PartialEq, Eq, Error)]
pub enum NotOne {
    /// It has a line feed.
    #[error("a line end")]
    LineEnd,
    /// Nothing is left of it without comment, checksum, blanks and line number.
    #[error("no command")]
    Empty,
    /// It has `M110`, which would set the printer's line number.
    #[error("M110")]
    HasM110,
    /// It has over 79 bytes.
    #[error("too long")]
    TooLong,
    /// It has a byte below 32 other than tab, or byte 127.
    #[error("control byte")]
    ControlByte,
}
