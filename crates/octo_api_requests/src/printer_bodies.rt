//! What JSON bodies ask of the printer's tool, of its bed and of its axes.
ghost use Rattle.std.specs.Prelude.{◌≡◌};
ghost use Rattle.serde_json.specs.View.{view};
ghost use Rattle.octo_api_commands.specs.Members.{Gives};
ghost use Rattle.octo_api_requests.specs.Bodies.{heat_asked, tool_asked, bed_asked, printhead_asked};

use crate::fields::degrees_at;
use octo_api_commands::{
    Unread, extrude_lines, feedrate_lines, flowrate_lines, home_lines, is_text_at, jog_lines,
    select_lines,
};
use octo_asks::Request;
use serde_json::Value;
use std::alloc::Global;

// What a reading returns, or that the JSON is wrong if it returns nothing.
pub(crate) fn or_wrong(read: Option<Request>) -> Result<Request, Unread>
    ensures { Gives read result }
{
    match read {
        Some(request) => Ok(request),
        None => Err(Unread::Wrong),
    }
}

// What a body asks of the tool's heater: its target temperature. Other tools are ignored.
fn heat_of(body: &Value) -> Option<Request>
    ensures { result ≡ heat_asked (view body.now) }
{
    let targets = body.get("targets")?;
    let degrees = degrees_at(targets, "tool0")?;
    Some(Request::HeatTool { degrees })
}

// What a body asks of the tool. Only an extrusion is a move.
pub(crate) fn tool_of(alloc: Global, body: &Value) -> Result<Request, Unread>
    ensures { Gives (tool_asked (view body.now)) result }
{
    if is_text_at(body, "command", "target") {
        return or_wrong(heat_of(body));
    }
    if is_text_at(body, "command", "select") {
        let texts = select_lines(alloc, body)?;
        return Ok(Request::Lines { texts });
    }
    if is_text_at(body, "command", "extrude") {
        let texts = extrude_lines(alloc, body)?;
        return Ok(Request::Move { texts });
    }
    if is_text_at(body, "command", "flowrate") {
        let texts = flowrate_lines(alloc, body)?;
        return Ok(Request::Lines { texts });
    }
    Err(Unread::Wrong)
}

// What a body asks of the bed: its target temperature.
pub(crate) fn bed_of(body: &Value) -> Option<Request>
    ensures { result ≡ bed_asked (view body.now) }
{
    if is_text_at(body, "command", "target") {
        let degrees = degrees_at(body, "target")?;
        return Some(Request::HeatBed { degrees });
    }
    None
}

// What a body asks of the axes. The speed of all moves may be set at any time.
pub(crate) fn printhead_of(alloc: Global, body: &Value) -> Result<Request, Unread>
    ensures { Gives (printhead_asked (view body.now)) result }
{
    if is_text_at(body, "command", "jog") {
        let texts = jog_lines(alloc, body)?;
        return Ok(Request::Move { texts });
    }
    if is_text_at(body, "command", "home") {
        let texts = home_lines(alloc, body)?;
        return Ok(Request::Move { texts });
    }
    if is_text_at(body, "command", "feedrate") {
        let texts = feedrate_lines(alloc, body)?;
        return Ok(Request::Lines { texts });
    }
    Err(Unread::Wrong)
}
