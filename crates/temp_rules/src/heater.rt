//! The heaters, and how a command asks one of them.
//!
//! Source: Marlin's G-code reference, `M104`, `M109`, `M140` and `M190`.

/// A heater of the printer.
#[derive(Clone, Copy, Debug, PartialEq, Eq)]
pub enum Heater {
    /// The hot end that a tool change selects.
    Tool,
    /// The heated bed.
    Bed,
}

// How a command asks a heater for a temperature.
#[derive(Clone, Copy, Debug, PartialEq, Eq)]
pub(crate) enum Asking {
    // It sets the target by `S` and goes on.
    Set,
    // It sets the target and waits for it, by `S` while heating and by `R` while cooling too.
    Wait,
}
