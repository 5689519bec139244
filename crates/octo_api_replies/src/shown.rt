//! What replies show of an answer by their paths. Source: OctoPrint's REST API, version 1.10.
ghost use Rattle.std.specs.Prelude.{◌≡◌, IfOk};
ghost use Rattle.octo_api_refusals.specs.Refused.{json_reply};
ghost use Rattle.octo_api_replies.specs.Shown.{heater_data, version_shown, caller_shown, printer_shown, shown_reply};

use crate::fixed::{COMMANDS, PROFILES, SERVER, text_reply};
use crate::pages::{caller_reply, login_reply, version_reply};
use crate::printer::{printer_reply, with_heater};
use crate::replies::to_bytes;
use byte_text::Name;
use job_desk::State;
use octo_api_refusals::{OK, empty_reply, json_reply};
use octo_api_routes::Shown;
use octo_asks::{Answer, ShownHeat};
use octo_http::{HttpReply, NO_CONTENT};
use serde_json::{Map, Value};
use std::alloc::{AllocError, Global};

// One heater, if it was reported.
#[tactic(auto, using(crate::proofs::Whole::heater_whole))]
fn heater_reply(alloc: Global, name: &str, heat: Option<ShownHeat>) -> Result<HttpReply, AllocError>
    ensures { IfOk result (λ reply. reply ≡ json_reply 200 (heater_data name.now heat)) }
{
    let members = with_heater(alloc, Map::new(alloc), name, heat)?;
    json_reply(alloc, OK, Value::Object(members))
}

// What a reply shows in the place of a version.
fn version_shown(alloc: Global, shown: Shown) -> Result<HttpReply, AllocError>
    ensures { IfOk result (λ reply. reply ≡ version_shown shown) }
{
    match shown {
        Shown::Server => text_reply(alloc, SERVER),
        Shown::Profiles => text_reply(alloc, PROFILES),
        Shown::SystemCommands => text_reply(alloc, COMMANDS),
        _ => version_reply(alloc),
    }
}

// What a reply shows of the caller.
fn caller_shown(
    alloc: Global,
    shown: Shown,
    name: &Option<Name>,
    groups: &[Name],
) -> Result<HttpReply, AllocError>
    ensures { IfOk result (λ reply. reply ≡ caller_shown shown name.now groups.now) }
{
    match shown {
        Shown::Login => login_reply(alloc, name, groups),
        Shown::Logout => Ok(empty_reply(alloc, NO_CONTENT)),
        _ => caller_reply(alloc, name, groups),
    }
}

// What a reply shows of the printer.
fn printer_shown(
    alloc: Global,
    shown: Shown,
    state: State,
    tool: Option<ShownHeat>,
    bed: Option<ShownHeat>,
) -> Result<HttpReply, AllocError>
    ensures { IfOk result (λ reply. reply ≡ printer_shown shown state tool bed) }
{
    match shown {
        Shown::Tool => heater_reply(alloc, "tool0", tool),
        Shown::Bed => heater_reply(alloc, "bed", bed),
        _ => printer_reply(alloc, state, tool, bed),
    }
}

/// The reply to an answer, of which its path shows this. Fails if out of memory. Source: OctoPrint's REST API, version 1.10.
pub fn shown_bytes(alloc: Global, shown: Shown, answer: Answer) -> Result<HttpReply, AllocError>
    ensures { IfOk result (λ reply. reply ≡ shown_reply shown answer) }
{
    match answer {
        Answer::Version => version_shown(alloc, shown),
        Answer::Caller { name, groups } => caller_shown(alloc, shown, &name, groups.as_slice()),
        Answer::Printer { state, tool, bed } => printer_shown(alloc, shown, state, tool, bed),
        other => to_bytes(alloc, other),
    }
}
