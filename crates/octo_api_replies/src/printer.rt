//! The state of the printer and its temperatures. Source: OctoPrint's REST API, printer operations.
ghost use Rattle.std.specs.Prelude.{◌≡◌, IfOk};
ghost use Rattle.serde_json.specs.View.{view, members_view};
ghost use Rattle.octo_api_replies.specs.Pages.{is_closed_or_error, is_operational, flags_data, state_data, with_heater, heaters_data, printer_data};
ghost use Rattle.octo_api_refusals.specs.Refused.{json_reply};

use crate::items::heat_value;
use crate::texts::state_text;
use job_desk::State;
use octo_api_refusals::{
    Members, OK, Primitive, json_reply, object_of, object_with, pair, with_member,
};
use octo_asks::ShownHeat;
use octo_http::HttpReply;
use serde_json::{Map, Value};
use std::alloc::{AllocError, Global};

// Whether the link is closed or has failed.
fn is_closed_or_error(state: State) -> bool
    ensures { result ≡ is_closed_or_error state }
{
    matches!(state, State::Offline | State::Fault)
}

// Whether the printer can be used.
fn is_operational(state: State) -> bool
    ensures { result ≡ is_operational state }
{
    match state {
        State::Offline | State::Connecting | State::Closing | State::Fault => false,
        _ => true,
    }
}

// The flags of a state.
fn flags_value(alloc: Global, state: State) -> Result<Value, AllocError>
    ensures { IfOk result (λ value. view value ≡ flags_data state) }
{
    object_of(
        alloc,
        &[
            ("cancelling", Primitive::Flag(state == State::Cancelling)),
            ("closedOrError", Primitive::Flag(is_closed_or_error(state))),
            ("error", Primitive::Flag(state == State::Fault)),
            ("finishing", Primitive::Flag(state == State::Finishing)),
            ("operational", Primitive::Flag(is_operational(state))),
            ("paused", Primitive::Flag(state == State::Paused)),
            ("pausing", Primitive::Flag(state == State::Pausing)),
            ("printing", Primitive::Flag(state == State::Printing)),
            ("ready", Primitive::Flag(state == State::Operational)),
            ("sdReady", Primitive::Flag(false)),
        ],
    )
}

// The state, and the flags that it has.
fn state_value(alloc: Global, state: State) -> Result<Value, AllocError>
    ensures { IfOk result (λ value. view value ≡ state_data state) }
{
    let flags = flags_value(alloc, state)?;
    object_with(
        alloc,
        &[("text", Primitive::Text(state_text(state)))],
        "flags",
        flags,
    )
}

// The members and a heater, if it was reported.
pub(crate) fn with_heater(
    alloc: Global,
    members: Members,
    name: &str,
    heat: Option<ShownHeat>,
) -> Result<Members, AllocError>
    ensures { IfOk result (λ all. members_view all.entries
        ≡ with_heater name.now heat (members_view members.entries)) }
{
    match heat {
        Some(heat) => with_member(alloc, members, name, heat_value(alloc, heat)?),
        None => Ok(members),
    }
}

// The heaters that were reported.
#[tactic(auto, using(crate::proofs::Heaters::heaters_in_order))]
fn heaters_value(
    alloc: Global,
    tool: Option<ShownHeat>,
    bed: Option<ShownHeat>,
) -> Result<Value, AllocError>
    ensures { IfOk result (λ value. view value ≡ heaters_data tool bed) }
{
    let members = with_heater(alloc, Map::new(alloc), "tool0", tool)?;
    Ok(Value::Object(with_heater(alloc, members, "bed", bed)?))
}

fn printer_value(
    alloc: Global,
    state: State,
    tool: Option<ShownHeat>,
    bed: Option<ShownHeat>,
) -> Result<Value, AllocError>
    ensures { IfOk result (λ value. view value ≡ printer_data state tool bed) }
{
    let state = state_value(alloc, state)?;
    let heaters = heaters_value(alloc, tool, bed)?;
    pair(alloc, "state", state, "temperature", heaters)
}

// The reply with the printer.
#[tactic(auto, using(crate::proofs::Whole::printer_whole))]
pub(crate) fn printer_reply(
    alloc: Global,
    state: State,
    tool: Option<ShownHeat>,
    bed: Option<ShownHeat>,
) -> Result<HttpReply, AllocError>
    ensures { IfOk result (λ reply. reply ≡ json_reply 200 (printer_data state tool bed)) }
{
    let value = printer_value(alloc, state, tool, bed)?;
    json_reply(alloc, OK, value)
}
