//! Modes and positions while commands run.
ghost use Rattle.std.specs.Prelude.{◌≡◌, ◌≤◌, ◌≤ℤ◌, pos, unsigned_abs, unwrap_or, ◌&&◌, false};
ghost use Rattle.gcode_measure.specs.Kind.{kind_of};
ghost use Rattle.gcode_measure.specs.Head.{is_far, moved};
ghost use Rattle.gcode_measure.specs.Position.{mode_by, is_move_kind, is_relative};

use crate::fault::MeasureFault;
use crate::kind::{Kind, Mode};
use crate::values::{Axis, read_values};

// How far from 0 a position may be, in millionths of a millimetre.
const FARTHEST: u128 = 1_000_000_000_000;

// The modes of X, Y and Z together and of E, and where each axis is, in millionths of a millimetre.
#[derive(Clone, Copy)]
pub(crate) struct Head {
    pub(crate) axes: Mode,
    pub(crate) extruder: Mode,
    pub(crate) x: i128,
    pub(crate) y: i128,
    pub(crate) z: i128,
    pub(crate) e: i128,
}

// The mode of an axis that a command sets.
fn mode_set(axis: Axis, kind: Kind) -> Option<Mode>
    ensures { result ≡ mode_by axis kind }
{
    match (axis, kind) {
        (_, Kind::AllAbsolute) | (Axis::E, Kind::AbsoluteExtruder) => Some(Mode::Absolute),
        (_, Kind::AllRelative) | (Axis::E, Kind::RelativeExtruder) => Some(Mode::Relative),
        _ => None,
    }
}

// Whether a command in a mode adds its values to the positions.
fn adds(kind: Kind, mode: Mode) -> bool
    ensures { result ≡ (is_move_kind kind && is_relative mode) }
{
    kind == Kind::Move && mode == Mode::Relative
}

// Whether a position is too far from 0.
fn is_far(at: i128) -> bool
    ensures { result ≡ is_far at }
{
    at.unsigned_abs() > FARTHEST
}

// A position after a value is added to it or takes its place.
fn moved(at: i128, value: Option<i64>, adds: bool) -> i128
    requires { is_far at ≡ false }
    ensures { result ≡ moved adds value at }
{
    match value {
        None => at,
        Some(value) if adds => at + i128::from(value),
        Some(value) => i128::from(value),
    }
}

impl Head {
    ghost use Rattle.std.specs.Prelude.{[], None, Some, MatchResult, IfOk};
    ghost use Rattle.gcode_measure.specs.Head.{head_of, head_then, has_far};
    ghost use Rattle.gcode_measure.specs.Measured.{fault_by};

    // Before any command.
    #[tactic(auto, unfolding(crate::specs::Position::position_of))]
    pub(crate) fn new() -> Self
        ensures value { result ≡ head_of [] }
        ensures near { has_far result ≡ false }
    {
        Head {
            axes: Mode::Absolute,
            extruder: Mode::Absolute,
            x: 0,
            y: 0,
            z: 0,
            e: 0,
        }
    }

    // After one more command, which is of this kind.
    pub(crate) fn after(&self, kind: Kind, text: &[u8]) -> Self
        requires kind { kind ≡ kind_of text.now }
        requires near { has_far self.now ≡ false }
        ensures { result ≡ head_then self.now text.now }
    {
        let values = read_values(kind, text);
        let axes = adds(kind, self.axes);
        let extruder = adds(kind, self.extruder);
        Head {
            axes: mode_set(Axis::X, kind).unwrap_or(self.axes),
            extruder: mode_set(Axis::E, kind).unwrap_or(self.extruder),
            x: moved(self.x, values.x, axes),
            y: moved(self.y, values.y, axes),
            z: moved(self.z, values.z, axes),
            e: moved(self.e, values.e, extruder),
        }
    }

    // After one more command of a line, unless that is refused.
    pub(crate) fn run(&self, kind: Kind, text: &[u8], line: u32) -> Result<Self, MeasureFault>
        requires kind { kind ≡ kind_of text.now }
        requires near { has_far self.now ≡ false }
        ensures value { MatchResult result
            (λ next. (next ≡ head_then self.now text.now) × (fault_by text.now line next ≡ None))
            (λ fault. fault_by text.now line (head_then self.now text.now) ≡ Some fault) }
        ensures near { IfOk result (λ next. has_far next ≡ false) }
    {
        if kind == Kind::Inches {
            return Err(MeasureFault::Inches { line });
        }
        let next = self.after(kind, text);
        if next.has_far() {
            return Err(MeasureFault::TooFar { line });
        }
        Ok(next)
    }

    // Whether an axis is too far from 0.
    pub(crate) fn has_far(&self) -> bool
        ensures { result ≡ has_far self.now }
    {
        is_far(self.x) || is_far(self.y) || is_far(self.z) || is_far(self.e)
    }
}
