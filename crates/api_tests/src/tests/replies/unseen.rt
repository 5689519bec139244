//! Answers that a host doesn't give to a peer: those for states and settings that it doesn't have, and at its end.
use super::*;
use job_desk::State;
use octo_outside::NameList;

// Settings have a port at least.
#[test]
fn no_ports(rt: HostRuntime) -> Result<(), Fail> {
    let alloc = rt.alloc();
    let answer = Answer::Connection {
        port: None,
        state: State::Fault,
        ports: NameList::new(alloc),
    };
    let body = "{\"current\":{\"port\":null,\"state\":\"Error\"},\"options\":{\"ports\":[]}}";
    shows(&rt, alloc, answer, 200, body)
}

// A printer in this state, without a temperature.
fn printer(state: State) -> Answer {
    Answer::Printer {
        state,
        tool: None,
        bed: None,
    }
}

// A printer in each of these states is shown so.
fn are_shown(rt: &impl Abort, alloc: Global, rows: &[(State, &str)]) -> Result<(), Fail> {
    for (state, body) in rows {
        shows(rt, alloc, printer(*state), 200, *body)?;
    }
    Ok(())
}

// Each state without a connected printer, with its text and its flags. A host refuses to show them.
const NOT_CONNECTED: [(State, &str); 4] = [
    (
        State::Offline,
        "{\"state\":{\"flags\":{\"cancelling\":false,\"closedOrError\":true,\"error\":false,\"finishing\":false,\
\"operational\":false,\"paused\":false,\"pausing\":false,\"printing\":false,\"ready\":false,\"sdReady\":false},\"text\":\"Offline\"},\"temperature\":{}}",
    ),
    (
        State::Connecting,
        "{\"state\":{\"flags\":{\"cancelling\":false,\"closedOrError\":false,\"error\":false,\"finishing\":false,\
\"operational\":false,\"paused\":false,\"pausing\":false,\"printing\":false,\"ready\":false,\"sdReady\":false},\"text\":\"Connecting\"},\"temperature\":{}}",
    ),
    (
        State::Closing,
        "{\"state\":{\"flags\":{\"cancelling\":false,\"closedOrError\":false,\"error\":false,\"finishing\":false,\
\"operational\":false,\"paused\":false,\"pausing\":false,\"printing\":false,\"ready\":false,\"sdReady\":false},\"text\":\"Closing\"},\"temperature\":{}}",
    ),
    (
        State::Fault,
        "{\"state\":{\"flags\":{\"cancelling\":false,\"closedOrError\":true,\"error\":true,\"finishing\":false,\
\"operational\":false,\"paused\":false,\"pausing\":false,\"printing\":false,\"ready\":false,\"sdReady\":false},\"text\":\"Error\"},\"temperature\":{}}",
    ),
];

#[test]
fn not_connected(rt: HostRuntime) -> Result<(), Fail> {
    are_shown(&rt, rt.alloc(), &NOT_CONNECTED)
}

// The queue's numbers are used up; the host has ended.
#[test]
fn ends(rt: HostRuntime) -> Result<(), Fail> {
    let alloc = rt.alloc();
    shows(
        &rt,
        alloc,
        Answer::ArrivalsUsed,
        409,
        "{\"error\":\"ArrivalsUsed\"}",
    )?;
    shows(&rt, alloc, Answer::Closed, 503, "{\"error\":\"Closed\"}")
}
