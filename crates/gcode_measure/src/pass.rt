//! One pass over the commands.
ghost use Rattle.std.specs.Prelude.{◌≡◌, ◌<◌, ◌+ℤ◌, ◌≤ℤ◌, pos, false};
ghost use Rattle.std.specs.Int.{int_gap};
ghost use Rattle.gcode_lines.specs.Job.{most_bytes};
ghost use Rattle.gcode_measure.specs.Head.{is_far, has_far};
ghost use Rattle.gcode_measure.specs.Pass.{widened, with_move, with_command, IsBounded};

use crate::fault::MeasureFault;
use crate::head::Head;
use crate::kind::{Kind, read_kind};
use crate::totals::{Extent, Measure};

// The extent with one more position.
fn widened(extent: Option<Extent>, at: i128) -> Extent
    ensures { result ≡ widened extent at }
{
    match extent {
        None => Extent { low: at, high: at },
        Some(Extent { low, high }) => Extent {
            low: low.min(at),
            high: high.max(at),
        },
    }
}

// How far a position is above another one, 0 if it is not.
fn gap(from: i128, to: i128) -> i128
    requires near { is_far from ≡ false }
    requires also_near { is_far to ≡ false }
    ensures value { result ≡ pos (int_gap from to) }
    ensures low { pos 0 ≤ℤ result }
    ensures high { result ≤ℤ pos 2000000000000 }
{
    (to - from).max(0)
}

// A sum of gaps with the one of two positions.
fn with_gap(sum: i128, from: i128, to: i128) -> i128
    requires low { pos 0 ≤ℤ sum }
    requires high { sum ≤ℤ pos 200000000000000000000 }
    requires near { is_far from ≡ false }
    requires also_near { is_far to ≡ false }
    ensures value { result ≡ sum +ℤ pos (int_gap from to) }
    ensures low { pos 0 ≤ℤ result }
    ensures high { result ≤ℤ (sum +ℤ pos 2000000000000) }
{
    sum + gap(from, to)
}

// The measure with one more move.
fn with_move(measure: &Measure, from: &Head, next: &Head) -> Measure
    requires bounded { IsBounded measure.now }
    requires room { measure.now.commands < most_bytes }
    requires near { has_far from.now ≡ false }
    requires also_near { has_far next.now ≡ false }
    ensures value { result ≡ with_move measure.now from.now next.now }
    ensures bounded { IsBounded result }
{
    Measure {
        commands: measure.commands + 1,
        moves: measure.moves + 1,
        fed: with_gap(measure.fed, from.e, next.e),
        drawn: with_gap(measure.drawn, next.e, from.e),
        x: Some(widened(measure.x, next.x)),
        y: Some(widened(measure.y, next.y)),
        z: Some(widened(measure.z, next.z)),
    }
}

// The measure with one more command, which is no move.
fn with_command(measure: &Measure) -> Measure
    requires bounded { IsBounded measure.now }
    requires room { measure.now.commands < most_bytes }
    ensures value { result ≡ with_command measure.now }
    ensures bounded { IsBounded result }
{
    Measure {
        commands: measure.commands + 1,
        ..*measure
    }
}

// Modes, positions and the measure while commands run.
#[derive(Drop)]
pub(crate) struct Pass {
    head: Head,
    pub(crate) measure: Measure,
    ghost near: { has_far head ≡ false },
    ghost bounded: { IsBounded measure },
}

impl Pass {
    ghost use Rattle.std.specs.Prelude.{[], None, MatchResult};
    ghost use Rattle.gcode_measure.specs.Head.{head_of, head_then};
    ghost use Rattle.gcode_measure.specs.Measured.{measured, fault_by};
    ghost use Rattle.gcode_measure.specs.Pass.{measure_then};

    // Before any command.
    pub(crate) fn new() -> Self
        ensures head { result.head ≡ head_of [] }
        ensures measure { result.measure ≡ measured [] }
    {
        Pass {
            head: Head::new(),
            measure: Measure {
                commands: 0,
                moves: 0,
                fed: 0,
                drawn: 0,
                x: None,
                y: None,
                z: None,
            },
        }
    }

    // Takes in one more command of a line, unless that is refused.
    pub(crate) fn take(&mut self, text: &[u8], line: u32) -> Result<(), MeasureFault>
        requires { self.old.measure.commands < most_bytes }
        ensures { MatchResult result
            (λ _. (fault_by text.now line self.new.head ≡ None)
            × (self.new.head ≡ head_then self.old.head text.now)
            × (self.new.measure
            ≡ measure_then self.old.measure text.now self.old.head self.new.head))
            (λ fault. fault_by text.now line (head_then self.old.head text.now) ≡ Some fault) }
    {
        let kind = read_kind(text);
        let next = self.head.run(kind, text, line)?;
        self.measure = if kind == Kind::Move {
            with_move(&self.measure, &self.head, &next)
        } else {
            with_command(&self.measure)
        };
        self.head = next;
        Ok(())
    }
}
