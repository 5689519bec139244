//! What a line from the printer says.

/// One heater's temperatures, in millionths of a degree.
#[derive(Clone, Copy, Debug, PartialEq, Eq)]
pub struct Heat {
    pub actual: i64,
    pub target: i64,
}

/// The temperatures that a line reports; a heater that it does not report whole is None.
#[derive(Clone, Copy, Debug, PartialEq, Eq)]
pub struct Temps {
    pub tool: Option<Heat>,
    pub bed: Option<Heat>,
}

/// A reply by its kind.
#[derive(Clone, Copy, Debug, PartialEq, Eq)]
pub enum Reply {
    /// `ok`, with the line number, the free buffer slots of planner and queue, and temperatures if it has them.
    Ok {
        number: Option<u32>,
        planner: Option<u32>,
        block: Option<u32>,
        temps: Option<Temps>,
    },
    /// `Resend:` with the line number that the printer asks for.
    Resend {
        number: u32,
    },
    /// `start`: the printer has begun anew.
    Start,
    /// The printer is busy and goes on with what it has.
    Busy,
    /// A report of temperatures.
    Temps(Temps),
    /// `Error:` with a text.
    Error,
    /// Any other line.
    Other,
}
