//! What a G-code file measures, and the file that goes on at one of its commands.
//!
//! Positions are whole millionths of a millimetre, all 0 at first, with absolute modes, as Marlin keeps them (its `G0`
//! to `G3`, `G28`, `G90` to `G92`, `M82` and `M83`).
#![tactic(auto)]

mod decimal;
mod fault;
mod head;
mod kind;
mod measuring;
mod pass;
mod remainder;
mod shown;
mod totals;
mod values;

pub use fault::{MeasureFault, RestFault};
pub use measuring::measure;
pub use remainder::rest;
pub use shown::{MeasureText, measure_text};
pub use totals::{Extent, Measure};
