//! What watches a floor while it runs.
use byte_text::Name;
use octo_floor_bay::FloorEvent;

/// What is shown the events of each round of a run. It changes nothing of the run.
pub trait Watch {
    /// The events of one round, in order, and the ports of the printers, which the events count from 0.
    fn see(&mut self, ports: &[Name], events: &[FloorEvent]);
}

/// What looks at nothing.
#[derive(Drop)]
pub struct Unwatched;

impl Watch for Unwatched {
    fn see(&mut self, _ports: &[Name], _events: &[FloorEvent]) {}
}
