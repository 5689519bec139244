//! Each call in each state.
use super::*;

// For each call the states in which it is accepted, each with the state after it. In all others it is refused.
const TABLE: [(Call, &[(State, State)]); 11] = [
    (
        Call::Connect,
        &[
            (State::Offline, State::Connecting),
            (State::Fault, State::Connecting),
        ],
    ),
    (
        Call::Disconnect,
        &[
            (State::Offline, State::Offline),
            (State::Connecting, State::Closing),
            (State::Operational, State::Closing),
            (State::Printing, State::Closing),
            (State::Pausing, State::Closing),
            (State::Paused, State::Closing),
            (State::Cancelling, State::Closing),
            (State::Finishing, State::Closing),
            (State::Closing, State::Closing),
            (State::Fault, State::Offline),
        ],
    ),
    (
        Call::Select,
        &[
            (State::Offline, State::Offline),
            (State::Connecting, State::Connecting),
            (State::Operational, State::Operational),
            (State::Fault, State::Fault),
        ],
    ),
    (Call::Start, &[(State::Operational, State::Printing)]),
    (
        Call::Pause,
        &[
            (State::Printing, State::Pausing),
            (State::Pausing, State::Pausing),
            (State::Paused, State::Paused),
        ],
    ),
    (
        Call::Resume,
        &[
            (State::Printing, State::Printing),
            (State::Paused, State::Printing),
        ],
    ),
    (
        Call::Toggle,
        &[
            (State::Printing, State::Pausing),
            (State::Paused, State::Printing),
        ],
    ),
    (
        Call::Cancel,
        &[
            (State::Printing, State::Cancelling),
            (State::Pausing, State::Cancelling),
            (State::Paused, State::Cancelling),
        ],
    ),
    (Call::Restart, &[(State::Paused, State::Printing)]),
    (
        Call::Manual,
        &[
            (State::Operational, State::Operational),
            (State::Printing, State::Printing),
            (State::Pausing, State::Pausing),
            (State::Paused, State::Paused),
            (State::Cancelling, State::Cancelling),
            (State::Finishing, State::Finishing),
        ],
    ),
    (
        Call::Stop,
        &[
            (State::Operational, State::Closing),
            (State::Printing, State::Closing),
            (State::Pausing, State::Closing),
            (State::Paused, State::Closing),
            (State::Cancelling, State::Closing),
            (State::Finishing, State::Closing),
        ],
    ),
];

const STATES: [State; 10] = [
    State::Offline,
    State::Connecting,
    State::Operational,
    State::Printing,
    State::Pausing,
    State::Paused,
    State::Cancelling,
    State::Finishing,
    State::Closing,
    State::Fault,
];

const CONNECT: Step = Step::Does(Call::Connect);

const START: Step = Step::Does(Call::Start);

const PAUSE: Step = Step::Does(Call::Pause);

const CANCEL: Step = Step::Does(Call::Cancel);

const DISCONNECT: Step = Step::Does(Call::Disconnect);

// The steps from a new desk without scripts, but with a file selected, to a state.
fn way_to(state: State) -> &'static [Step] {
    match state {
        State::Offline => &[],
        State::Connecting => &[CONNECT],
        State::Operational => &[CONNECT, Step::Opens],
        State::Printing => &[CONNECT, Step::Opens, START],
        State::Pausing => &[CONNECT, Step::Opens, START, PAUSE],
        State::Paused => &[CONNECT, Step::Opens, START, PAUSE, Step::Acknowledges(0)],
        State::Cancelling => &[CONNECT, Step::Opens, START, CANCEL],
        State::Finishing => &[CONNECT, Step::Opens, START, G28],
        State::Closing => &[CONNECT, DISCONNECT],
        State::Fault => &[CONNECT, Step::Fails],
    }
}

fn desk_in(rt: &impl Abort, alloc: Global, state: State) -> Result<Desk, Fail> {
    let mut desk = desk_with(rt, alloc, &[])?;
    take_all(rt, alloc, &mut desk, way_to(state))?;
    assert_eq!(rt; desk.state(), state);
    Ok(desk)
}

// The state after a call that is accepted in this one, by the call's row.
fn state_after(row: &[(State, State)], state: State) -> Option<State> {
    for pair in row {
        let (before, after) = *pair;
        if before == state {
            return Some(after);
        }
    }
    None
}

fn check_cell(
    rt: &impl Abort,
    alloc: Global,
    call: Call,
    state: State,
    after: Option<State>,
) -> Result<(), Fail> {
    let mut desk = desk_in(rt, alloc, state)?;
    let accepted = make(rt, alloc, &mut desk, call)?;
    assert_eq!(rt;
        (accepted, desk.state()),
        (after.is_some(), after.unwrap_or(state)),
        "{call:?} in {state:?}"
    );
    Ok(())
}

// One call in each state.
fn check_row(
    rt: &impl Abort,
    alloc: Global,
    call: Call,
    row: &[(State, State)],
) -> Result<(), Fail> {
    for state in STATES {
        check_cell(rt, alloc, call, state, state_after(row, state))?;
    }
    Ok(())
}

#[test]
fn each_call_in_each_state(rt: HostRuntime) -> Result<(), Fail> {
    for (call, row) in TABLE {
        check_row(&rt, rt.alloc(), call, row)?;
    }
    Ok(())
}
