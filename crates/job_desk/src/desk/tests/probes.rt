//! Worked cases: the probes for a printer whose `ok`s have numbers.
use super::*;

// What happens at a moment.
#[derive(Clone, Copy)]
enum Event {
    // This line is issued.
    Issues(&'static str),
    // A poll or a probe is issued.
    Asks(&'static str),
    IssuesNothing,
    // This number of the session's lines is acknowledged.
    Hears(u32),
    // Whether the connection may be closed.
    Closable(bool),
}

fn next_line(rt: &impl Abort, desk: &mut Desk, moment: u64, text: &str, is_poll: bool) {
    match desk.pull(moment) {
        Some(line) => {
            assert!(rt;
                line.text.as_slice() == text.as_bytes() && (line.tag == Tag::Poll) == is_poll,
                "{text} at {moment}"
            );
        }
        None => panic!(rt; "no line at {moment}"),
    }
}

fn hears(rt: &impl Abort, desk: &mut Desk, moment: u64, acked: u32) {
    assert!(rt; desk.lines.acked <= acked && u64::from(acked) <= desk.lines.issued);
    let _ = desk.note(acked, &LinkFact::Quiet, moment);
}

fn happens(rt: &impl Abort, desk: &mut Desk, moment: u64, event: Event) {
    match event {
        Event::Issues(text) => next_line(rt, desk, moment, text, false),
        Event::Asks(text) => next_line(rt, desk, moment, text, true),
        Event::IssuesNothing => assert!(rt; desk.pull(moment).is_none(), "a line at {moment}"),
        Event::Hears(acked) => hears(rt, desk, moment, acked),
        Event::Closable(closable) => {
            assert_eq!(rt; desk.closable(), closable, "at {moment}");
        }
    }
}

fn all_happen(rt: &impl Abort, desk: &mut Desk, events: &[(u64, Event)]) {
    for row in events {
        let (moment, event) = *row;
        happens(rt, desk, moment, event);
    }
}

// A desk with a link that is ready from moment 0 on, a poll every 5000 milliseconds and a script for the end of the connection.
fn ready_desk(rt: &impl Abort, alloc: Global, numbered: bool, last: Call) -> Result<Desk, Fail> {
    let scripts = scripts_of(rt, alloc, &[(Point::Disconnect, "M84")]);
    let mut desk = new_desk(alloc, scripts, numbered)?;
    let steps = [
        Step::Does(Call::Select),
        Step::Does(Call::Connect),
        Step::Opens,
        Step::Does(last),
    ];
    take_all(rt, alloc, &mut desk, &steps)?;
    Ok(desk)
}

const LAST_OK_LOST: [(u64, Event); 12] = [
    (0, Event::Issues("G28")),
    (0, Event::IssuesNothing),
    (4_999, Event::IssuesNothing),
    // A probe takes the place of the poll.
    (5_000, Event::Asks("M400")),
    (5_000, Event::IssuesNothing),
    // Neither a poll nor, before 5000 milliseconds have passed, another probe.
    (9_999, Event::IssuesNothing),
    (10_000, Event::Asks("M400")),
    (10_001, Event::Hears(3)),
    (14_999, Event::IssuesNothing),
    (15_000, Event::Asks("M105")),
    (15_000, Event::IssuesNothing),
    (15_001, Event::Asks("M400")),
];

// The `ok` of the last command is lost, and so is that of the first probe: the second one acknowledges all.
#[test]
fn last_ok_lost(rt: HostRuntime) -> Result<(), Fail> {
    let mut desk = ready_desk(&rt, rt.alloc(), true, Call::Start)?;
    all_happen(&rt, &mut desk, &LAST_OK_LOST);
    assert_eq!(rt; desk.state(), State::Operational);
    Ok(())
}

const IDLE: [(u64, Event); 7] = [
    (4_999, Event::IssuesNothing),
    (5_000, Event::Asks("M105")),
    (5_000, Event::Asks("M400")),
    (5_020, Event::Hears(2)),
    (9_999, Event::IssuesNothing),
    (10_000, Event::Asks("M105")),
    (10_000, Event::IssuesNothing),
];

// Only a probe acknowledges a poll, and with nothing unacknowledged there is none.
#[test]
fn probes_while_idle(rt: HostRuntime) -> Result<(), Fail> {
    let mut desk = ready_desk(&rt, rt.alloc(), true, Call::Manual)?;
    all_happen(&rt, &mut desk, &IDLE);
    Ok(())
}

const LAST_SCRIPT: [(u64, Event); 10] = [
    (0, Event::Issues("M84")),
    (0, Event::IssuesNothing),
    (4_999, Event::IssuesNothing),
    (5_000, Event::Asks("M400")),
    (5_000, Event::IssuesNothing),
    (10_000, Event::Asks("M400")),
    (10_000, Event::Closable(false)),
    // The script's line is acknowledged, and no probe is waited for.
    (10_050, Event::Hears(1)),
    (20_000, Event::IssuesNothing),
    (20_000, Event::Closable(true)),
];

// While a connection is being closed, probes go on until its script is acknowledged.
#[test]
fn probes_while_closing(rt: HostRuntime) -> Result<(), Fail> {
    let mut desk = ready_desk(&rt, rt.alloc(), true, Call::Disconnect)?;
    all_happen(&rt, &mut desk, &LAST_SCRIPT);
    Ok(())
}

const WITHOUT_NUMBERS: [(u64, Event); 4] = [
    (0, Event::Issues("G28")),
    (5_000, Event::Asks("M105")),
    (5_000, Event::IssuesNothing),
    (90_000, Event::IssuesNothing),
];

const LAST_SCRIPT_WITHOUT_NUMBERS: [(u64, Event); 4] = [
    (90_000, Event::Issues("M84")),
    (95_000, Event::IssuesNothing),
    (95_000, Event::Hears(2)),
    (95_000, Event::Closable(false)),
];

// Without numbers there are no probes.
#[test]
fn no_probes(rt: HostRuntime) -> Result<(), Fail> {
    let mut desk = ready_desk(&rt, rt.alloc(), false, Call::Start)?;
    all_happen(&rt, &mut desk, &WITHOUT_NUMBERS);
    desk.disconnect();
    all_happen(&rt, &mut desk, &LAST_SCRIPT_WITHOUT_NUMBERS);
    Ok(())
}
