//! How a print ends.
use octo_session::SessionEnd;

/// How a print ended.
#[derive(Clone, Copy, Debug, PartialEq, Eq)]
pub enum PrintEnd {
    /// All of it was executed and acknowledged, and the connection was ended by its script.
    Done,
    /// A command of the file asks for more than its heater's limit: its line, counted from 1, what it asks for and the
    /// limit, both in degrees Celsius. Nothing was sent.
    TooHot { line: u32, asked: u64, limit: u16 },
    /// The link lists no port of that name.
    NoPort,
    /// A call of the link failed.
    LinkFailed,
    /// The session ended by its own rules.
    Ended(SessionEnd),
    /// This many turns were made, and the print was not over.
    TurnsUsed { turns: u64 },
}
