//! The acknowledgements of a printer.

/// How a printer acknowledges the lines that it runs, and whether its replies may be lost.
///
/// Source: Marlin's `ADVANCED_OK` for `numbered`. That the number is the N parameter of the line is this project's choice.
#[derive(Clone, Copy, Debug, PartialEq, Eq)]
pub struct Oks {
    /// Whether an `ok` names its line, but for the one to `M105`.
    pub numbered: bool,
    /// Whether reply lines may be lost on their way to the host.
    pub lost: bool,
}
