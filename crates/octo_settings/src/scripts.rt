//! The scripts of settings.
ghost use Rattle.std.specs.Prelude.{◌≡◌, ◌≤◌, ◌+◌, ◌⊎◌, ◌<◌, length, IfOk, MatchResult, Ok, Err};
ghost use Rattle.byte_text.specs.Marks.{contains_text};
ghost use Rattle.byte_text.specs.Sendable.{IsSendable};
ghost use Rattle.byte_text.specs.declared.name.TheConstants.{MOST_NAME_BYTES};
ghost use Rattle.job_desk.specs.Data.{texts_at};
ghost use Rattle.job_desk.specs.Scripts.{most_script_lines, no_scripts};
ghost use Rattle.toml.specs.Data.{get_member};
ghost use Rattle.octo_settings.specs.Scripts.{script_name, script_key, all_points, is_template, command_of, with_lines, with_texts, with_script, scripts_at, scripts_of};
ghost use Rattle.octo_settings.specs.Seen.{members_or, data_of_value};
ghost use Rattle.octo_settings.specs.Values.{Reads};
ghost use Rattle.octo_settings.specs.declared.fault.SettingsFault.TheVariants.{NoMemory};

use crate::fault::{SettingsFault, out_of_range};
use crate::texts::read_texts;
use crate::values::{at, read_section};
use byte_text::Text;
use gcode_lines::one_command;
use job_desk::{MOST_SCRIPT_LINES, Point, Scripts};
use octo_outside::WordList;
use std::alloc::Global;
use temp_rules::{Limits, check};
use toml::{Table, Value};

/// The key of a script, with OctoPrint's name.
pub fn script_key(point: Point) -> &'static str
    ensures key { result.now ≡ script_key point }
    ensures short { length result.now ≤ MOST_NAME_BYTES }
{
    match point {
        Point::Connected => "scripts.afterPrinterConnected",
        Point::Disconnect => "scripts.beforePrinterDisconnected",
        Point::Started => "scripts.beforePrintStarted",
        Point::Paused => "scripts.afterPrintPaused",
        Point::Resumed => "scripts.beforePrintResumed",
        Point::Cancelled => "scripts.afterPrintCancelled",
        Point::Done => "scripts.afterPrintDone",
    }
}

fn script_name(point: Point) -> &'static str
    ensures { result.now ≡ script_name point }
{
    match point {
        Point::Connected => "afterPrinterConnected",
        Point::Disconnect => "beforePrinterDisconnected",
        Point::Started => "beforePrintStarted",
        Point::Paused => "afterPrintPaused",
        Point::Resumed => "beforePrintResumed",
        Point::Cancelled => "afterPrintCancelled",
        Point::Done => "afterPrintDone",
    }
}

#[tactic(auto, unfolding(crate::specs::Scripts::all_points))]
fn all_points() -> [Point; 7]
    ensures { result ≡ all_points }
{
    [
        Point::Connected,
        Point::Disconnect,
        Point::Started,
        Point::Paused,
        Point::Resumed,
        Point::Cancelled,
        Point::Done,
    ]
}

// Whether bytes contain a mark.
#[tactic(auto, using(crate::proofs::Lines::contains_steps))]
fn contains(bytes: &[u8], mark: &[u8]) -> bool
    ensures { result ≡ contains_text mark.now bytes.now }
{
    for start in 0..bytes.len() {
        if bytes[start..].starts_with(mark) {
            return true;
        }
    }
    mark.is_empty()
}

fn is_template(line: &[u8]) -> bool
    ensures { result ≡ is_template line.now }
{
    contains(line, b"{{") || contains(line, b"{%")
}

// The command of a script's line.
fn read_command(
    limits: &Limits,
    point: Point,
    number: u32,
    line: &str,
) -> Result<Text, SettingsFault>
    ensures exact { MatchResult result
        (λ text. command_of limits.now point number line.now ≡ Ok text.items)
        (λ fault. command_of limits.now point number line.now ≡ Err fault) }
    ensures sendable { IfOk result (λ text. IsSendable text.items) }
{
    let line = line.as_bytes();
    if is_template(line) {
        return Err(SettingsFault::Template { script: point });
    }
    let Ok(text) = one_command(line) else {
        return Err(out_of_range(script_key(point)));
    };
    match check(text.as_slice(), limits) {
        Ok(()) => Ok(text),
        Err(_) => Err(SettingsFault::TooHot {
            script: point,
            line: number,
        }),
    }
}

// Adds the commands of lines to a script that has room for them.
fn add_lines(
    limits: &Limits,
    point: Point,
    lines: &WordList,
    scripts: &mut Scripts,
) -> Result<(), SettingsFault>
    requires { length (texts_at point scripts.old) + length lines.now ≤ most_script_lines }
    ensures { MatchResult result
        (λ _. with_lines limits.now point 1 lines.now scripts.old ≡ Ok scripts.new)
        (λ fault. (fault ≡ NoMemory)
        ⊎ (with_lines limits.now point 1 lines.now scripts.old ≡ Err fault)) }
{
    for i in 0..lines.count() {
        let text = read_command(limits, point, i as u32 + 1, lines.get(i))?;
        if scripts.add(point, &text).is_err() {
            return Err(SettingsFault::NoMemory);
        }
    }
    Ok(())
}

fn add_texts(
    limits: &Limits,
    point: Point,
    lines: &WordList,
    scripts: &mut Scripts,
) -> Result<(), SettingsFault>
    ensures { MatchResult result
        (λ _. with_texts limits.now point lines.now scripts.old ≡ Ok scripts.new)
        (λ fault. (fault ≡ NoMemory)
        ⊎ (with_texts limits.now point lines.now scripts.old ≡ Err fault)) }
{
    if scripts.count(point).saturating_add(lines.count()) > MOST_SCRIPT_LINES {
        return Err(out_of_range(script_key(point)));
    }
    add_lines(limits, point, lines, scripts)
}

// Adds the script of a point to the scripts, if the table has one.
fn read_script(
    alloc: Global,
    limits: &Limits,
    table: Option<&Table>,
    point: Point,
    scripts: &mut Scripts,
) -> Result<(), SettingsFault>
    ensures { MatchResult result
        (λ _. with_script limits.now point
        (get_member (script_name point) (members_or table.entry)) scripts.old ≡ Ok scripts.new)
        (λ fault. (fault ≡ NoMemory)
        ⊎ (with_script limits.now point
        (get_member (script_name point) (members_or table.entry)) scripts.old ≡ Err fault)) }
{
    let Some(value) = at(table, script_name(point)) else {
        return Ok(());
    };
    let lines = read_texts(alloc, script_key(point), value)?;
    add_texts(limits, point, &lines, scripts)
}

fn read_scripts_at(
    alloc: Global,
    limits: &Limits,
    table: Option<&Table>,
    points: &[Point],
) -> Result<Scripts, SettingsFault>
    ensures { Reads result (scripts_at limits.now (members_or table.entry) points.now no_scripts) }
{
    let mut scripts = Scripts::new(alloc);
    for point in points {
        read_script(alloc, limits, table, *point, &mut scripts)?;
    }
    Ok(scripts)
}

pub(crate) fn read_scripts(
    alloc: Global,
    limits: &Limits,
    value: Option<&Value>,
) -> Result<Scripts, SettingsFault>
    ensures { Reads result (scripts_of limits.now (data_of_value value.entry)) }
{
    match read_section("scripts", value) {
        Ok(table) => read_scripts_at(alloc, limits, table, &all_points()),
        Err(fault) => Err(fault),
    }
}
