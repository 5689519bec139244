//! How a print goes or ended.

/// How a print goes.
#[derive(Clone, Copy, Debug, PartialEq, Eq)]
pub enum Outcome {
    /// It is still going on.
    Active,
    /// The printer has acknowledged all of it.
    Done,
    /// It was cancelled, left for another print, or its printer was disconnected.
    Cancelled,
    /// The link or the session failed while it was going on.
    Failed,
}

/// The end of a print, named by its number.
#[derive(Clone, Copy, Debug, PartialEq, Eq)]
pub struct Ending {
    pub print: u32,
    pub outcome: Outcome,
}
