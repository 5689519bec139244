//! What a file measures.
ghost use Rattle.std.specs.Prelude.{◌≡◌};
ghost use Rattle.gcode_measure.specs.Measured.{measure_of};

use crate::fault::MeasureFault;
use crate::pass::Pass;
use crate::totals::Measure;
use gcode_lines::Job;

/// What a file's commands measure, or its first line with `G20` or with a position over 1,000,000,000,000 millionths of a
/// millimetre away from 0. It takes no memory. A command's code is its first argument, if that is a whole number; of an axis
/// the first argument with a number counts, of `G28` any. Arcs count by their ends.
///
/// Source: Marlin's G-code reference, `G0` to `G3`, `G20`, `G28`, `G90` to `G92`, `M82` and `M83`.
pub fn measure(job: &Job) -> Result<Measure, MeasureFault>
    ensures { result ≡ measure_of job.now }
{
    let mut pass = Pass::new();
    for i in 0..job.count() {
        pass.take(job.get(i), job.line(i))?;
    }
    Ok(pass.measure)
}
