//! Worked cases: what is issued around a pause and a cancel.
use byte_text::Name;

mod early;
mod probes;
mod table;

use super::*;
use crate::{AddFault, Ending, LinkFact, Outcome, Point, Tag};
use gcode_lines::{one_command, read_commands};
use std::process::Abort;
use std::test::Fail;

#[derive(Clone, Copy, Debug)]
enum Call {
    Connect,
    Disconnect,
    Select,
    Start,
    Pause,
    Resume,
    Toggle,
    Cancel,
    Restart,
    Manual,
    // The only line is M112.
    Stop,
    // M112 after another line.
    StopLast,
}

#[derive(Clone, Copy)]
enum Step {
    Does(Call),
    Refuses(Call),
    // A session is opened, and its hello is acknowledged.
    Opens,
    // A link is made, and the hello isn't acknowledged yet.
    Links,
    // It is.
    Greets,
    Fails,
    Issues(&'static str, Tag),
    // A script's line of print 1.
    Script(&'static str, Point),
    IssuesNothing,
    // This number of the session's lines is acknowledged, which ends nothing.
    Acknowledges(u32),
    // This number of lines is acknowledged, which ends print 1.
    Ends(u32, Outcome),
    Is(State),
    // Whether the connection may be closed.
    Closable(bool),
    // The link was hung up, which ends no print, or print 1.
    HungUp(Option<Outcome>),
}

const G28: Step = Step::Issues("G28", Tag::Job { print: 1, index: 0 });

fn add(rt: &impl Abort, scripts: &mut Scripts, point: Point, text: &str) {
    match one_command(text.as_bytes()) {
        Ok(text) => assert!(rt; scripts.add(point, &text).is_ok()),
        Err(_) => panic!(rt; "no command"),
    }
}

fn scripts_of(rt: &impl Abort, alloc: Global, lines: &[(Point, &str)]) -> Scripts {
    let mut scripts = Scripts::new(alloc);
    for (point, text) in lines {
        add(rt, &mut scripts, *point, text);
    }
    scripts
}

fn new_desk(alloc: Global, scripts: Scripts, numbered: bool) -> Result<Desk, AllocError> {
    let limits = Limits {
        tool: 250,
        bed: 100,
    };
    Desk::new(alloc, scripts, limits, 5000, numbered)
}

// A desk with these scripts and a selected file of one command.
fn desk_with(rt: &impl Abort, alloc: Global, lines: &[(Point, &str)]) -> Result<Desk, Fail> {
    let mut desk = new_desk(alloc, scripts_of(rt, alloc, lines), false)?;
    select(alloc, &mut desk)?;
    Ok(desk)
}

fn select(alloc: Global, desk: &mut Desk) -> Result<bool, Fail> {
    let name = Name::of("a.gcode")?;
    let job = read_commands(alloc, b"G28\n")?;
    Ok(desk.select(&name, job).is_ok())
}

fn start(rt: &impl Abort, desk: &mut Desk) -> bool {
    let former = desk.prints.greatest;
    assert!(rt; former < 1000);
    desk.start(former + 1).is_ok()
}

fn restart(rt: &impl Abort, desk: &mut Desk) -> bool {
    let former = desk.prints.greatest;
    assert!(rt; former < 1000);
    desk.restart(former + 1) == Ok(former)
}

fn disconnect(desk: &mut Desk) -> bool {
    desk.disconnect();
    true
}

fn connect(rt: &impl Abort, desk: &mut Desk) -> bool {
    desk.connect(&Name::from_text("p").expect(rt, "a long name"))
        .is_ok()
}

fn stop(desk: &mut Desk) -> Result<bool, Fail> {
    let line = one_command(b"M112")?;
    Ok(desk.manual(&[line]).is_ok())
}

fn stop_last(desk: &mut Desk) -> Result<bool, Fail> {
    let first = one_command(b"M105")?;
    let last = one_command(b"M112")?;
    Ok(desk.manual(&[first, last]).is_ok())
}

// Makes a call, and returns whether it was accepted.
fn make(rt: &impl Abort, alloc: Global, desk: &mut Desk, call: Call) -> Result<bool, Fail> {
    match call {
        Call::Connect => Ok(connect(rt, desk)),
        Call::Disconnect => Ok(disconnect(desk)),
        Call::Select => select(alloc, desk),
        Call::Start => Ok(start(rt, desk)),
        Call::Pause => Ok(desk.pause().is_ok()),
        Call::Resume => Ok(desk.resume().is_ok()),
        Call::Toggle => Ok(desk.toggle().is_ok()),
        Call::Cancel => Ok(desk.cancel().is_ok()),
        Call::Restart => Ok(restart(rt, desk)),
        Call::Manual => Ok(desk.manual(&[]).is_ok()),
        Call::Stop => stop(desk),
        Call::StopLast => stop_last(desk),
    }
}

fn links(rt: &impl Abort, desk: &mut Desk) {
    assert_eq!(rt; desk.note(0, &LinkFact::Opened, 0), None);
}

fn greets(rt: &impl Abort, desk: &mut Desk) {
    let acked = desk.lines.acked;
    assert!(rt; u64::from(acked) <= desk.lines.issued);
    assert_eq!(rt; desk.note(acked, &LinkFact::Ready, 0), None);
}

fn opens(rt: &impl Abort, desk: &mut Desk) {
    links(rt, desk);
    greets(rt, desk);
}

fn fails(rt: &impl Abort, desk: &mut Desk) {
    let acked = desk.lines.acked;
    assert!(rt; u64::from(acked) <= desk.lines.issued);
    assert_eq!(rt; desk.note(acked, &LinkFact::Failed, 0), None);
}

fn hung_up(rt: &impl Abort, desk: &mut Desk, outcome: Option<Outcome>) {
    let acked = desk.lines.acked;
    assert!(rt; u64::from(acked) <= desk.lines.issued);
    match desk.note(acked, &LinkFact::Closed, 0) {
        Some(ending) => assert_eq!(rt; Some(ending.outcome), outcome),
        None => assert!(rt; outcome.is_none()),
    }
}

fn acknowledge(rt: &impl Abort, desk: &mut Desk, acked: u32) -> Option<Ending> {
    assert!(rt; desk.lines.acked <= acked && u64::from(acked) <= desk.lines.issued);
    desk.note(acked, &LinkFact::Quiet, 0)
}

fn issues(rt: &impl Abort, desk: &mut Desk, text: &str, tag: Tag) {
    match desk.pull(0) {
        Some(line) => {
            assert!(rt;
                line.tag == tag && line.text.as_slice() == text.as_bytes(),
                "{text}"
            );
        }
        None => panic!(rt; "no line"),
    }
}

// Makes a call that is accepted, or one that is refused.
fn answers(
    rt: &impl Abort,
    alloc: Global,
    desk: &mut Desk,
    call: Call,
    accepts: bool,
) -> Result<(), Fail> {
    assert_eq!(rt; make(rt, alloc, desk, call)?, accepts, "{call:?}");
    Ok(())
}

fn take(rt: &impl Abort, alloc: Global, desk: &mut Desk, step: Step) -> Result<(), Fail> {
    match step {
        Step::Does(call) => answers(rt, alloc, desk, call, true)?,
        Step::Refuses(call) => answers(rt, alloc, desk, call, false)?,
        Step::Opens => opens(rt, desk),
        Step::Links => links(rt, desk),
        Step::Greets => greets(rt, desk),
        Step::Fails => fails(rt, desk),
        Step::Issues(text, tag) => issues(rt, desk, text, tag),
        Step::Script(text, point) => issues(rt, desk, text, Tag::Script { point, print: 1 }),
        Step::IssuesNothing => assert!(rt; desk.pull(0).is_none()),
        Step::Acknowledges(acked) => assert_eq!(rt; acknowledge(rt, desk, acked), None),
        Step::Ends(acked, outcome) => {
            let ending = Ending { print: 1, outcome };
            assert_eq!(rt; acknowledge(rt, desk, acked), Some(ending));
        }
        Step::Is(state) => assert_eq!(rt; desk.state(), state),
        Step::Closable(closable) => assert_eq!(rt; desk.closable(), closable),
        Step::HungUp(outcome) => hung_up(rt, desk, outcome),
    }
    Ok(())
}

fn take_all(rt: &impl Abort, alloc: Global, desk: &mut Desk, steps: &[Step]) -> Result<(), Fail> {
    for step in steps {
        take(rt, alloc, desk, *step)?;
    }
    Ok(())
}

const PAUSE_AND_RESUME: [Step; 21] = [
    Step::Does(Call::Connect),
    Step::Opens,
    Step::Does(Call::Start),
    Step::Script("M107", Point::Started),
    Step::Acknowledges(1),
    Step::Does(Call::Pause),
    Step::Script("G92 E0", Point::Started),
    Step::Acknowledges(2),
    Step::Is(State::Pausing),
    Step::Script("G91", Point::Paused),
    Step::Is(State::Pausing),
    Step::Acknowledges(3),
    Step::Is(State::Paused),
    Step::IssuesNothing,
    Step::Does(Call::Resume),
    Step::Script("G90", Point::Resumed),
    G28,
    Step::Is(State::Finishing),
    Step::Acknowledges(4),
    Step::Ends(5, Outcome::Done),
    Step::Is(State::Operational),
];

// A print that is paused after its first line goes on at the next line.
#[test]
fn pause_and_resume(rt: HostRuntime) -> Result<(), Fail> {
    let scripts = [
        (Point::Started, "M107"),
        (Point::Started, "G92 E0"),
        (Point::Paused, "G91"),
        (Point::Resumed, "G90"),
    ];
    let mut desk = desk_with(&rt, rt.alloc(), &scripts)?;
    take_all(&rt, rt.alloc(), &mut desk, &PAUSE_AND_RESUME)
}

const CANCEL_WHILE_PAUSING: [Step; 15] = [
    Step::Does(Call::Connect),
    Step::Opens,
    Step::Does(Call::Start),
    Step::Does(Call::Pause),
    Step::Script("G91", Point::Paused),
    Step::Does(Call::Cancel),
    Step::Refuses(Call::Cancel),
    Step::Script("G1 Z1", Point::Paused),
    Step::Script("M84", Point::Cancelled),
    Step::IssuesNothing,
    Step::Acknowledges(2),
    Step::Is(State::Cancelling),
    Step::Ends(3, Outcome::Cancelled),
    Step::Is(State::Operational),
    Step::Refuses(Call::Cancel),
];

// A cancel in the midst of a Paused script lets that script end first.
#[test]
fn cancel_while_pausing(rt: HostRuntime) -> Result<(), Fail> {
    let scripts = [
        (Point::Paused, "G91"),
        (Point::Paused, "G1 Z1"),
        (Point::Cancelled, "M84"),
    ];
    let mut desk = desk_with(&rt, rt.alloc(), &scripts)?;
    take_all(&rt, rt.alloc(), &mut desk, &CANCEL_WHILE_PAUSING)
}

// A script's line of no print.
const M84: Step = Step::Issues(
    "M84",
    Tag::Script {
        point: Point::Disconnect,
        print: 0,
    },
);

const DISCONNECT_TWICE: [Step; 12] = [
    Step::Does(Call::Connect),
    Step::Opens,
    Step::Does(Call::Start),
    G28,
    Step::Does(Call::Disconnect),
    Step::Is(State::Closing),
    M84,
    Step::IssuesNothing,
    Step::Closable(false),
    Step::Does(Call::Disconnect),
    Step::Is(State::Closing),
    Step::Closable(true),
];

// The first disconnect waits for the acknowledgements, the second doesn't.
#[test]
fn disconnect_twice(rt: HostRuntime) -> Result<(), Fail> {
    let mut desk = desk_with(&rt, rt.alloc(), &[(Point::Disconnect, "M84")])?;
    take_all(&rt, rt.alloc(), &mut desk, &DISCONNECT_TWICE)
}

// The line that stops the printer.
const M112: Step = Step::Issues("M112", Tag::Manual);

const STOP_A_PRINT: [Step; 21] = [
    Step::Does(Call::Connect),
    Step::Opens,
    Step::Does(Call::Start),
    Step::Does(Call::Manual),
    Step::Does(Call::Stop),
    Step::Is(State::Closing),
    Step::Refuses(Call::Stop),
    Step::Refuses(Call::Manual),
    Step::Does(Call::Disconnect),
    Step::Closable(false),
    M112,
    Step::IssuesNothing,
    Step::Closable(true),
    Step::HungUp(Some(Outcome::Failed)),
    Step::Is(State::Fault),
    // It is over with that session.
    Step::Does(Call::Connect),
    Step::Opens,
    Step::Does(Call::Disconnect),
    Step::Closable(true),
    Step::HungUp(None),
    Step::Is(State::Offline),
];

// M112 alone is all that is still issued, nothing is waited for, and the print has failed.
#[test]
fn stop_a_print(rt: HostRuntime) -> Result<(), Fail> {
    let mut desk = desk_with(&rt, rt.alloc(), &[(Point::Started, "M107")])?;
    take_all(&rt, rt.alloc(), &mut desk, &STOP_A_PRINT)
}

const STOP_WHILE_CLOSING: [Step; 10] = [
    Step::Does(Call::Connect),
    Step::Opens,
    Step::Does(Call::Disconnect),
    Step::Closable(false),
    Step::Does(Call::Stop),
    M112,
    Step::IssuesNothing,
    Step::Closable(true),
    Step::HungUp(None),
    Step::Is(State::Fault),
];

// It is taken while the Disconnect script waits, which is then left out.
#[test]
fn stop_while_closing(rt: HostRuntime) -> Result<(), Fail> {
    let mut desk = desk_with(&rt, rt.alloc(), &[(Point::Disconnect, "M84")])?;
    take_all(&rt, rt.alloc(), &mut desk, &STOP_WHILE_CLOSING)
}

const STOP_AMONG_OTHERS: [Step; 9] = [
    Step::Does(Call::Connect),
    Step::Opens,
    Step::Does(Call::Start),
    Step::Does(Call::StopLast),
    Step::Is(State::Printing),
    Step::Issues("M105", Tag::Manual),
    M112,
    G28,
    Step::Is(State::Finishing),
];

// Among other lines M112 is a line like any other.
#[test]
fn stop_among_others(rt: HostRuntime) -> Result<(), Fail> {
    let mut desk = desk_with(&rt, rt.alloc(), &[])?;
    take_all(&rt, rt.alloc(), &mut desk, &STOP_AMONG_OTHERS)
}

// Scripts of which one has 64 lines.
fn with_longest_script(rt: &impl Abort, alloc: Global) -> Scripts {
    let mut scripts = Scripts::new(alloc);
    for _ in 0..64 {
        add(rt, &mut scripts, Point::Done, "M84");
    }
    scripts
}

// The 65th line of a script is one too many.
#[test]
fn longest_script(rt: HostRuntime) -> Result<(), Fail> {
    let line = one_command(b"M84")?;
    let mut scripts = with_longest_script(&rt, rt.alloc());
    assert!(rt; scripts.get(Point::Done, 63).is_some());
    assert_eq!(rt; scripts.add(Point::Done, &line), Err(AddFault::TooMany));
    assert_eq!(rt; scripts.add(Point::Paused, &line), Ok(()));
    Ok(())
}

// A copy has the lines of each script.
#[test]
fn copied_scripts(rt: HostRuntime) -> Result<(), Fail> {
    let copy = with_longest_script(&rt, rt.alloc()).copy(rt.alloc())?;
    assert_eq!(rt; copy.count(Point::Done), 64);
    assert_eq!(rt; copy.count(Point::Paused), 0);
    Ok(())
}

// Each call that takes memory returns its value.
#[test]
fn ample(rt: HostRuntime) -> Result<(), Fail> {
    let desk = new_desk(rt.alloc(), with_longest_script(&rt, rt.alloc()), false)?;
    assert_eq!(rt; desk.state(), State::Offline);
    Ok(())
}
