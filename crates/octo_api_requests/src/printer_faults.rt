//! What is wrong with bodies about the printer's tool, its bed and its axes.
ghost use Rattle.std.specs.Prelude.{◌≡◌};
ghost use Rattle.serde_json.specs.View.{view};
ghost use Rattle.octo_api_requests.specs.BodyFaults.{extrude_fault, tool_fault, jog_fault, printhead_fault, bed_fault};

use crate::body_faults::unread_member;
use octo_api_commands::{amount_at, axis_at, flag_at, is_text_at, speed_at};
use octo_api_routes::{BodyFault, Member};
use serde_json::Value;

// Of an extrusion.
fn extrude_fault(body: &Value) -> BodyFault
    ensures { result ≡ extrude_fault (view body.now) }
{
    if amount_at(body).is_none() {
        return unread_member(Member::Amount, body);
    }
    BodyFault::Wrong {
        member: Member::Speed,
    }
}

pub(crate) fn tool_fault(body: &Value) -> BodyFault
    ensures { result ≡ tool_fault (view body.now) }
{
    if is_text_at(body, "command", "target") {
        return match body.get("targets") {
            Some(targets) => unread_member(Member::Tool0, targets),
            None => BodyFault::Missing {
                member: Member::Targets,
            },
        };
    }
    if is_text_at(body, "command", "select") {
        return unread_member(Member::Tool, body);
    }
    if is_text_at(body, "command", "extrude") {
        return extrude_fault(body);
    }
    if is_text_at(body, "command", "flowrate") {
        return unread_member(Member::Factor, body);
    }
    unread_member(Member::Command, body)
}

// Of a move by hand: one that moves no axis lacks X.
fn jog_fault(body: &Value) -> BodyFault
    ensures { result ≡ jog_fault (view body.now) }
{
    if axis_at(body, "x").is_none() {
        return BodyFault::Wrong { member: Member::X };
    }
    if axis_at(body, "y").is_none() {
        return BodyFault::Wrong { member: Member::Y };
    }
    if axis_at(body, "z").is_none() {
        return BodyFault::Wrong { member: Member::Z };
    }
    if flag_at(body, "absolute", false).is_none() {
        return BodyFault::Wrong {
            member: Member::Absolute,
        };
    }
    if speed_at(body, 1).is_none() {
        return BodyFault::Wrong {
            member: Member::Speed,
        };
    }
    BodyFault::Missing { member: Member::X }
}

pub(crate) fn printhead_fault(body: &Value) -> BodyFault
    ensures { result ≡ printhead_fault (view body.now) }
{
    if is_text_at(body, "command", "jog") {
        return jog_fault(body);
    }
    if is_text_at(body, "command", "home") {
        return unread_member(Member::Axes, body);
    }
    if is_text_at(body, "command", "feedrate") {
        return unread_member(Member::Factor, body);
    }
    unread_member(Member::Command, body)
}

pub(crate) fn bed_fault(body: &Value) -> BodyFault
    ensures { result ≡ bed_fault (view body.now) }
{
    if is_text_at(body, "command", "target") {
        return unread_member(Member::Target, body);
    }
    unread_member(Member::Command, body)
}
