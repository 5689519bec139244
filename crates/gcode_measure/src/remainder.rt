//! The file that goes on at a command.
ghost use Rattle.std.specs.Prelude.{◌≡◌, ◌≤◌, ◌++◌, ◌⊎◌, ℕ, List, [], take, drop, length, false, None, Some, Err, Ok, IfOk, OnOk, MatchResult};
ghost use Rattle.gcode_lines.specs.Job.{texts_of};
ghost use Rattle.gcode_measure.specs.Head.{head_of};
ghost use Rattle.gcode_measure.specs.Measured.{first_fault};
ghost use Rattle.octo_outside.specs.Lists.{with_line_feed};
ghost use Rattle.gcode_measure.specs.Rest.{axes_command, extruder_command, axis_text, position_command, line_of, text_of_lines, rest_lines, rest_of, IsHeadBefore, IsRest};

use crate::decimal::put_micro;
use crate::fault::{MeasureFault, RestFault};
use crate::head::Head;
use crate::kind::{Mode, read_kind};
use gcode_lines::{Job, has_order_mark, is_numbered};
use octo_outside::{Blob, append_line};
use std::alloc::{AllocError, Global};

// Modes and positions before a command, unless one before it is refused.
fn head_before(job: &Job, from: usize) -> Result<Head, MeasureFault>
    requires { from ≤ length job.now.commands }
    ensures { MatchResult result
        (λ head. IsHeadBefore job.now from head)
        (λ fault. first_fault [] (take from job.now.commands) ≡ Some fault) }
{
    let mut head = Head::new();
    for i in 0..from {
        let text = job.get(i);
        head = head.run(read_kind(text), text, job.line(i))?;
    }
    Ok(head)
}

// The command that sets the mode of X, Y and Z, and of E with them.
fn axes_command(mode: Mode) -> &'static [u8]
    ensures { result.now ≡ axes_command mode }
{
    match mode {
        Mode::Absolute => b"G90",
        Mode::Relative => b"G91",
    }
}

// The command that sets the mode of E alone.
fn extruder_command(mode: Mode) -> &'static [u8]
    ensures { result.now ≡ extruder_command mode }
{
    match mode {
        Mode::Absolute => b"M82",
        Mode::Relative => b"M83",
    }
}

// Adds an axis's letter with the text before it, and its position; after an error the text may hold a part of it, here
// and below.
fn put_axis(text: &mut Blob, name: &[u8], at: i128) -> Result<(), AllocError>
    ensures { OnOk result (text.new ≡ text.old ++ axis_text name.now at) }
{
    text.append(name)?;
    put_micro(text, at)
}

// Adds the line that sets all positions.
#[tactic(auto, unfolding(crate::specs::Rest::position_command))]
fn put_positions(text: &mut Blob, head: &Head) -> Result<(), AllocError>
    ensures { OnOk result (text.new ≡ text.old ++ with_line_feed (position_command head.now)) }
{
    put_axis(text, b"G92 X", head.x)?;
    put_axis(text, b" Y", head.y)?;
    put_axis(text, b" Z", head.z)?;
    put_axis(text, b" E", head.e)?;
    text.append(b"\n")
}

// Adds a command as a line.
fn put_command(text: &mut Blob, command: &[u8]) -> Result<(), AllocError>
    ensures { OnOk result (text.new ≡ text.old ++ with_line_feed (line_of command.now)) }
{
    if is_numbered(command) || has_order_mark(command) {
        text.append(b"N0 ")?;
    }
    append_line(text, command)
}

// The file that goes on at a command, from the modes and positions that a head has.
fn write_rest(alloc: Global, job: &Job, from: usize, head: &Head) -> Result<Blob, AllocError>
    requires { from ≤ length job.now.commands }
    ensures { IfOk result (λ text.
        text ≡ text_of_lines (rest_lines head.now (drop from (texts_of job.now)))) }
{
    let mut text = Blob::new(alloc);
    append_line(&mut text, axes_command(head.axes))?;
    append_line(&mut text, extruder_command(head.extruder))?;
    put_positions(&mut text, head)?;
    for i in from..job.count() {
        put_command(&mut text, job.get(i))?;
    }
    Ok(text)
}

/// The file that goes on at a command, counted from 0: it sets the modes and positions that the commands before leave, and
/// has the commands from there on. Past comes first, exactly if there are fewer commands; then the first of the commands
/// before that is refused; NoMemory may come at any point.
///
/// It neither heats nor homes: the nozzle must be where its third line says before that is run. A command that begins with
/// `N` and a digit gets the line number `N0`, so that it isn't taken for a numbered line.
///
/// Source: Marlin's G-code reference, `G90` to `G92`, `M82` and `M83`.
pub fn rest(alloc: Global, job: &Job, from: usize) -> Result<Blob, RestFault>
    ensures exact { (result ≡ Err RestFault.NoMemory) ⊎ (result ≡ rest_of job.now from) }
    ensures goes_on { IfOk result (IsRest job.now from) }
{
    if from > job.count() {
        return Err(RestFault::Past {
            count: job.count() as u32,
        });
    }
    let head = match head_before(job, from) {
        Ok(head) => head,
        Err(fault) => return Err(RestFault::Measure(fault)),
    };
    match write_rest(alloc, job, from, &head) {
        Ok(text) => Ok(text),
        Err(AllocError) => Err(RestFault::NoMemory),
    }
}
