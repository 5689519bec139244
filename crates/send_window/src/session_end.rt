//! How a session on the line may end.

/// Why a session ended by its own rules. Line numbers are those on the wire, from 2; `NumbersUsed` has a count of lines.
#[derive(Clone, Copy, Debug, PartialEq, Eq)]
pub enum SessionEnd {
    /// For this number of time limits in a row nothing was received, or the hello had no `ok`.
    NoAnswer { silent: u8 },
    /// The printer asked for a line that it had acknowledged.
    AskedBack { asked: u32, acked: u32 },
    /// The printer asked for a line after the next one to issue.
    AskedAhead { asked: u32, issued: u32 },
    /// An `ok` named another line than the next one to acknowledge.
    Counts { number: u32, expected: u32 },
    /// The printer has restarted.
    Restarted,
    /// In this number of time limits in a row the printer asked for the line after the last issued one, so it had taken them
    /// all, but the `ok` of a line was missing.
    LostOk { limits: u8 },
    /// The line numbers of a session are used up; this many lines were issued.
    NumbersUsed { issued: u32 },
}
