//! The desk's states, the points at which scripts run, and how an issued line is tagged.
use thiserror::Error;

/// What the desk does with its printer.
#[derive(Clone, Copy, Debug, PartialEq, Eq)]
pub enum State {
    Offline,
    Connecting,
    Operational,
    Printing,
    Pausing,
    Paused,
    Cancelling,
    Finishing,
    Closing,
    Fault,
}

/// When a script runs, with the name of OctoPrint's GCODE script.
///
/// Source: OctoPrint's documentation, GCODE scripts.
#[derive(Clone, Copy, Debug, PartialEq, Eq, Default)]
pub enum Point {
    /// afterPrinterConnected
    #[default]
    Connected,
    /// beforePrinterDisconnected
    Disconnect,
    /// beforePrintStarted
    Started,
    /// afterPrintPaused
    Paused,
    /// beforePrintResumed
    Resumed,
    /// afterPrintCancelled
    Cancelled,
    /// afterPrintDone
    Done,
}

/// Where an issued line comes from.
#[derive(Clone, Copy, Debug, PartialEq, Eq, Default)]
pub enum Tag {
    /// A line of a script, with its print, or 0 if it belongs to none.
    Script { point: Point, print: u32 },
    /// The file command at an index, counted from 0.
    Job { print: u32, index: u32 },
    /// A line of a user.
    #[default]
    Manual,
    /// The desk's own question for temperatures.
    Poll,
}

/// Why the desk refuses a call.
#[derive(Clone, Copy, Debug, PartialEq, Eq, Error)]
pub enum Refusal {
    /// The call is not for this state.
    #[error("not in the state {state:?}")]
    WrongState { state: State },
    /// No file is selected.
    #[error("no file is selected")]
    NoFile,
    /// With `held` manual lines waiting, the new ones would pass 256.
    #[error("{held} lines wait")]
    Full { held: u32 },
    /// The file is being printed.
    #[error("the file is being printed")]
    FileBusy,
    /// A command of the file asks for more degrees than the limit; the line is counted from 1.
    #[error("line {line}: too hot: {asked} over {limit}")]
    TooHotLine { line: u32, asked: u64, limit: u16 },
}
