//! Why a file is not measured.
use thiserror::Error;

/// Why a file is not measured: its first such line, counted from 1.
#[derive(Clone, Copy, Debug, PartialEq, Eq, Error)]
pub enum MeasureFault {
    /// `G20`, which sets the unit to inches.
    #[error("line {line}: inches")]
    Inches { line: u32 },
    /// An axis is over 1,000,000,000,000 millionths of a millimetre away from 0.
    #[error("line {line}: too far")]
    TooFar { line: u32 },
}

/// Why there is no file that goes on at a command.
#[derive(Clone, Copy, Debug, PartialEq, Eq, Error)]
pub enum RestFault {
    /// A command before it is refused.
    #[error(transparent)]
    Measure(MeasureFault),
    /// There is no such command: the file has this many.
    #[error("{count} commands")]
    Past { count: u32 },
    /// Out of memory.
    #[error("out of memory")]
    NoMemory,
}
