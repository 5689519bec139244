//! The line that stops the printer before the hello is acknowledged.
use super::*;

const STOP_EARLY: [Step; 19] = [
    Step::Does(Call::Connect),
    // No link is made.
    Step::Refuses(Call::Stop),
    Step::Links,
    Step::Refuses(Call::Manual),
    Step::Refuses(Call::StopLast),
    Step::Is(State::Connecting),
    Step::Does(Call::Stop),
    Step::Is(State::Closing),
    Step::Refuses(Call::Stop),
    Step::Closable(false),
    M112,
    Step::IssuesNothing,
    Step::Closable(true),
    Step::Refuses(Call::Stop),
    Step::HungUp(None),
    Step::Is(State::Fault),
    // The next link isn't made either.
    Step::Does(Call::Connect),
    Step::Refuses(Call::Stop),
    Step::Is(State::Connecting),
];

// M112 is taken as soon as a link is made, and then the link is hung up.
#[test]
fn stop_early(rt: HostRuntime) -> Result<(), Fail> {
    let mut desk = desk_with(&rt, rt.alloc(), &[(Point::Connected, "M107")])?;
    take_all(&rt, rt.alloc(), &mut desk, &STOP_EARLY)
}

const READY_WHILE_STOPPING: [Step; 12] = [
    Step::Does(Call::Connect),
    Step::Links,
    Step::Does(Call::Stop),
    Step::Greets,
    Step::Is(State::Closing),
    Step::Refuses(Call::Stop),
    M112,
    Step::Refuses(Call::Stop),
    Step::IssuesNothing,
    Step::Closable(true),
    Step::HungUp(None),
    Step::Is(State::Fault),
];

// If the hello is acknowledged before it was issued, it is still the last line, and is issued once.
#[test]
fn ready_while_stopping(rt: HostRuntime) -> Result<(), Fail> {
    let mut desk = desk_with(&rt, rt.alloc(), &[(Point::Connected, "M107")])?;
    take_all(&rt, rt.alloc(), &mut desk, &READY_WHILE_STOPPING)
}
