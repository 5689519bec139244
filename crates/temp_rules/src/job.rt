//! The first command of a file that is too hot.
ghost use Rattle.std.specs.Prelude.{◌≡◌};
ghost use Rattle.temp_rules.specs.Hot.{first_hot_of};

use super::limits::{Limits, check};
use gcode_lines::Job;

/// A command that is too hot: its line counted from 1, the value in whole degrees rounded up, and the limit.
#[derive(Clone, Copy, Debug, PartialEq, Eq)]
pub struct HotLine {
    pub line: u32,
    pub asked: u64,
    pub limit: u16,
}

/// The first command of a job that asks for more than its heater's limit; None if there is none.
pub fn first_hot(job: &Job, limits: &Limits) -> Option<HotLine>
    ensures { result ≡ first_hot_of limits.now job.now.commands }
{
    for i in 0..job.count() {
        if let Err(hot) = check(job.get(i), limits) {
            return Some(HotLine {
                line: job.line(i),
                asked: hot.asked,
                limit: hot.limit,
            });
        }
    }
    None
}
