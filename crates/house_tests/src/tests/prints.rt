//! Prints are started, paused, cancelled and refused.
use super::*;
use octo_access::Permission;

pub(super) const SIX: &[u8] = b"G28\nG1 X1\nG1 X2\nG1 X3\nG1 X4\nG1 X5\n";

// A connected host that prints a file of six commands.
fn printing(rt: &impl Abort, alloc: Global) -> Bench {
    let mut bench = Bench::sound(rt, alloc);
    bench.connect(rt);
    bench.select(rt, SIX);
    bench.accepts(rt, ANA, Wish::Start);
    bench
}

// A request that isn't for the state while a print goes on.
#[test]
fn resume_and_restart_while_printing(rt: HostRuntime) {
    let mut bench = printing(&rt, rt.alloc());
    bench.accepts(&rt, ANA, Wish::Resume);
    assert_eq!(rt; bench.state(), State::Printing);
    let wrong = Seen::WrongState(State::Printing);
    bench.sees(&rt, ANA, Wish::Restart, wrong);
    bench.sees(&rt, ROOT, Wish::Shutdown, wrong);
    bench.end();
}

// A print that is paused and cancelled is recorded so; a second cancel is refused.
#[test]
fn cancel_while_paused(rt: HostRuntime) {
    let mut bench = printing(&rt, rt.alloc());
    bench.turn(&rt);
    bench.accepts(&rt, ANA, Wish::Pause);
    bench.turn_until(&rt, State::Paused);
    bench.accepts(&rt, ANA, Wish::Cancel);
    let wrong = Seen::WrongState(State::Cancelling);
    bench.sees(&rt, ANA, Wish::Cancel, wrong);
    bench.turn_until(&rt, State::Operational);
    assert_eq!(rt; bench.kept_outcome(0), Some(Outcome::Cancelled));
    bench.end();
}

// Two disconnects during a print: the link is closed at the next turn, and the record is cancelled.
#[test]
fn disconnect_twice(rt: HostRuntime) {
    let mut bench = printing(&rt, rt.alloc());
    bench.turn(&rt);
    bench.accepts(&rt, ANA, Wish::Disconnect);
    bench.turn(&rt);
    assert_eq!(rt; bench.state(), State::Closing);
    bench.accepts(&rt, ANA, Wish::Disconnect);
    bench.turn(&rt);
    assert_eq!(rt; bench.state(), State::Offline);
    assert_eq!(rt; bench.kept_outcome(0), Some(Outcome::Cancelled));
    bench.end();
}

// `M112` alone during a print: the next turn sends it, and the one after it closes the link. The record is Failed.
#[test]
fn stop_while_printing(rt: HostRuntime) {
    let mut bench = printing(&rt, rt.alloc());
    bench.turn(&rt);
    bench.accepts(&rt, ANA, Wish::Line(b"M112"));
    let closing = Seen::WrongState(State::Closing);
    bench.sees(&rt, ANA, Wish::Line(b"M112"), closing);
    bench.turn(&rt);
    assert_eq!(rt; bench.state(), State::Closing);
    bench.turn(&rt);
    assert_eq!(rt; bench.state(), State::Fault);
    assert_eq!(rt; bench.kept_outcome(0), Some(Outcome::Failed));
    bench.end();
}

// `M112` alone while the host connects: it is refused before a link is made, and then goes out before the hello is answered.
#[test]
fn stop_while_connecting(rt: HostRuntime) {
    let mut bench = Bench::sound(&rt, rt.alloc());
    bench.accepts(&rt, ANA, Wish::Connect);
    let connecting = Seen::WrongState(State::Connecting);
    bench.sees(&rt, ANA, Wish::Line(b"M112"), connecting);
    bench.turn(&rt);
    bench.sees(&rt, ANA, Wish::Line(b"M105"), connecting);
    bench.accepts(&rt, ANA, Wish::Line(b"M112"));
    bench.turn(&rt);
    assert_eq!(rt; bench.state(), State::Closing);
    bench.turn(&rt);
    assert_eq!(rt; bench.state(), State::Fault);
    bench.end();
}

// A restart ends the paused print as cancelled in the same commit.
#[test]
fn restart_while_paused(rt: HostRuntime) {
    let mut bench = printing(&rt, rt.alloc());
    bench.accepts(&rt, ANA, Wish::Toggle);
    bench.turn_until(&rt, State::Paused);
    bench.accepts(&rt, ANA, Wish::Restart);
    bench.keeps(&rt, Some(Outcome::Cancelled), Some(Outcome::Active));
    bench.turn_until(&rt, State::Operational);
    assert_eq!(rt; bench.kept_outcome(1), Some(Outcome::Done));
    bench.end();
}

// By hand it is moved while no print is active, paused or not; other lines are taken during a print.
#[test]
fn moves_by_hand(rt: HostRuntime) {
    let mut bench = Bench::sound(&rt, rt.alloc());
    bench.sees(
        &rt,
        ANA,
        Wish::Move(b"G28 X"),
        Seen::WrongState(State::Offline),
    );
    bench.connect(&rt);
    bench.accepts(&rt, ANA, Wish::Move(b"G28 X"));
    bench.sees(&rt, ANA, Wish::Move(b"M104 S251"), Seen::TooHot(251, 250));
    bench.sees(
        &rt,
        EVE,
        Wish::Move(b"G28 X"),
        Seen::Denied(Some(Permission::Control)),
    );
    bench.end();
}

#[test]
fn no_moves_while_printing(rt: HostRuntime) {
    let mut bench = printing(&rt, rt.alloc());
    bench.sees(
        &rt,
        ANA,
        Wish::Move(b"G28 X"),
        Seen::WrongState(State::Printing),
    );
    bench.accepts(&rt, ANA, Wish::Line(b"M220 S90"));
    bench.accepts(&rt, ANA, Wish::Pause);
    bench.turn_until(&rt, State::Paused);
    bench.sees(
        &rt,
        ANA,
        Wish::Move(b"G28 X"),
        Seen::WrongState(State::Paused),
    );
    bench.end();
}

// Whom a key names is never refused: the admin, a user, and nobody, who is a guest.
#[test]
fn callers(rt: HostRuntime) {
    let mut bench = Bench::sound(&rt, rt.alloc());
    bench.sees(&rt, ROOT, Wish::Caller, Seen::Caller(Some(4), 6));
    bench.sees(&rt, ANA, Wish::Caller, Seen::Caller(Some(3), 5));
    bench.sees(&rt, b"", Wish::Caller, Seen::Caller(None, 6));
    bench.sees(&rt, EVE, Wish::Limits, Seen::Limits(250, 100));
    bench.sees(&rt, b"", Wish::Limits, Seen::Denied(None));
    bench.end();
}

// The host's own ask connects to the first port, if the desk may connect.
#[test]
fn connects_itself(rt: HostRuntime) {
    let mut bench = Bench::sound(&rt, rt.alloc());
    bench.accepts(&rt, b"", Wish::AutoConnect);
    assert_eq!(rt; bench.state(), State::Connecting);
    bench.turn_until(&rt, State::Operational);
    bench.sees(
        &rt,
        b"",
        Wish::AutoConnect,
        Seen::WrongState(State::Operational),
    );
    bench.end();
}

// Lines above the limit of the tool, 250 degrees, at it, and one that isn't a command.
#[test]
fn too_hot(rt: HostRuntime) {
    let mut bench = Bench::sound(&rt, rt.alloc());
    bench.connect(&rt);
    bench.sees(&rt, ANA, Wish::Line(b"M109 R260"), Seen::TooHot(260, 250));
    bench.sees(&rt, ANA, Wish::Line(b"M104 S250.1"), Seen::TooHot(251, 250));
    bench.sees(&rt, ANA, Wish::Line(b"M104 S250"), Seen::Accepted);
    bench.sees(&rt, ANA, Wish::Line(b"M117 M110 N9"), Seen::BadCommand);
    bench.end();
}

// The bed at its limit, 100 degrees, and the tool above its own.
#[test]
fn too_hot_tool(rt: HostRuntime) {
    let mut bench = Bench::sound(&rt, rt.alloc());
    bench.connect(&rt);
    bench.accepts(&rt, ANA, Wish::HeatBed(100));
    bench.sees(&rt, ANA, Wish::HeatTool(251), Seen::TooHot(251, 250));
    bench.end();
}

#[test]
fn too_hot_file(rt: HostRuntime) {
    let mut bench = Bench::sound(&rt, rt.alloc());
    bench.connect(&rt);
    bench.select(&rt, b"G28\nG1 X10\nM109 R260\n");
    bench.sees(&rt, ANA, Wish::Start, Seen::TooHotLine(3, 260, 250));
    bench.end();
}

// A reader may not start; an unknown key may nothing.
#[test]
fn denied(rt: HostRuntime) {
    let mut bench = Bench::sound(&rt, rt.alloc());
    let reader = Seen::Denied(Some(Permission::Print));
    bench.sees(&rt, EVE, Wish::Start, reader);
    let unknown = Seen::Denied(None);
    bench.sees(&rt, b"no-key-0123456789", Wish::Start, unknown);
    bench.sees(&rt, b"", Wish::Version, unknown);
    bench.accepts(&rt, b"", Wish::Leave);
    bench.end();
}

// The commit of a start fails: nothing is started, and the next one is.
#[test]
fn failed_start(rt: HostRuntime) {
    let mut bench = Bench::failing(&rt, rt.alloc(), "any", &[2], &[]);
    bench.connect(&rt);
    bench.select(&rt, b"G28\n");
    bench.sees(&rt, ANA, Wish::Start, Seen::KeeperFault);
    assert_eq!(rt; bench.state(), State::Operational);
    assert_eq!(rt; bench.kept_outcome(0), None);
    bench.accepts(&rt, ANA, Wish::Start);
    assert_eq!(rt; bench.kept_outcome(0), Some(Outcome::Active));
    bench.end();
}
