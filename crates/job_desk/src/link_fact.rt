//! What one turn finds of the link.
use send_window::SessionEnd;

/// What a turn found of the link.
#[derive(Clone, Copy, Debug, PartialEq, Eq)]
pub enum LinkFact {
    /// Nothing new.
    Quiet,
    /// A link was made.
    Opened,
    /// The hello was acknowledged.
    Ready,
    /// The link was hung up.
    Closed,
    /// The port is not listed.
    NoPort,
    /// A call of the link failed.
    Failed,
    /// The session ended by its own rules.
    Ended(SessionEnd),
}
