//! Worlds and printers, step by step: each event with what it changes, and the replies to lines.
ghost use Rattle.std.specs.Prelude.{◌≤◌};

use byte_text::{Line, ReplyLine};
use printer_model::{Oks, Printer, Reason, Taken, World, WorldEvent};
use std::alloc::Global;
use std::process::Abort;

const PLAIN: Oks = Oks {
    numbered: false,
    lost: false,
};

const NUMBERED: Oks = Oks {
    numbered: true,
    lost: false,
};

const LOSSY: Oks = Oks {
    numbered: true,
    lost: true,
};

// A line of the outside.
fn line(rt: &impl Abort, text: &str) -> Line {
    let mut line = Line::new();
    line.try_extend_from_slice(text.as_bytes())
        .expect(rt, "a short line");
    line
}

fn reply(rt: &impl Abort, text: &str) -> ReplyLine {
    let mut reply = ReplyLine::new();
    reply
        .try_extend_from_slice(text.as_bytes())
        .expect(rt, "a short reply");
    reply
}

// An event with its line as a text.
#[derive(Clone, Copy)]
enum Step {
    Open(u32),
    Send(&'static str),
    Arrive,
    Lose(u32),
    LoseReply(u32),
    Garble(&'static str),
    Run,
    Restart,
    Chat(&'static str),
    // The reply at the front is this one, and is received.
    Hear(&'static str),
    // Nothing can be received.
    Quiet,
    Close,
}

fn event(rt: &impl Abort, step: Step) -> WorldEvent {
    match step {
        Step::Open(last) => WorldEvent::Opened { last },
        Step::Send(text) => WorldEvent::Send(line(rt, text)),
        Step::Arrive => WorldEvent::Arrive,
        Step::Lose(at) => WorldEvent::Lose { at },
        Step::LoseReply(at) => WorldEvent::LoseReply { at },
        Step::Garble(text) => WorldEvent::Garble {
            at: 0,
            line: line(rt, text),
        },
        Step::Run => WorldEvent::Run,
        Step::Restart => WorldEvent::Restart,
        Step::Chat(text) => WorldEvent::Chatter(reply(rt, text)),
        Step::Hear(_) | Step::Quiet => WorldEvent::Recv,
        Step::Close => WorldEvent::Closed,
    }
}

fn check_front(rt: &impl Abort, world: &World, text: &str) {
    match world.front_reply() {
        Some(reply) => assert_eq!(rt; reply.as_slice(), text.as_bytes()),
        None => panic!(rt; "no reply, where {text} is due"),
    }
}

// Does a step, which happens or does not.
fn perform(rt: &impl Abort, world: &mut World, step: Step, happens: bool) {
    if let Step::Hear(text) = step {
        check_front(rt, world, text);
    }
    let event = event(rt, step);
    assert!(rt; world.apply(&event) == Ok(happens));
}

// How many lines are run in these steps, at a printer with this number of buffer slots.
fn count_run(rt: &impl Abort, alloc: Global, slots: u8, steps: &[(Step, bool)]) -> usize
    requires some { 1 ≤ slots }
    requires few { slots ≤ 16 }
{
    count_run_by(rt, alloc, slots, PLAIN, steps)
}

// The same with these acknowledgements.
fn count_run_by(
    rt: &impl Abort,
    alloc: Global,
    slots: u8,
    oks: Oks,
    steps: &[(Step, bool)],
) -> usize
    requires some { 1 ≤ slots }
    requires few { slots ≤ 16 }
{
    let mut world = World::new(alloc, slots, oks);
    for (step, happens) in steps {
        perform(rt, &mut world, *step, *happens);
    }
    world.log().len()
}

// A printer that reads a wrong number, is full, and has its line asked again.
const STEPS: [(Step, bool); 44] = [
    (Step::Open(4), true),
    (Step::Run, false),
    (Step::Send("N7 G28*20"), true),
    (Step::Arrive, true),
    (
        Step::Hear("Error:Line Number is not Last Line Number+1, Last Line: 4"),
        true,
    ),
    (Step::Hear("Resend: 5"), true),
    (Step::Hear("ok"), true),
    (Step::Quiet, false),
    (Step::Send("N0 M110 N1*125"), true),
    (Step::Arrive, true),
    (Step::Hear("Error:checksum mismatch, Last Line: 4"), true),
    (Step::Hear("Resend: 5"), true),
    (Step::Hear("ok"), true),
    (Step::Send("N0 M110 N1*124"), true),
    (Step::Send("N2 G28*17"), true),
    (Step::Arrive, true),
    (Step::Garble("N2 G28*17"), false),
    (Step::Garble("G28"), false),
    (Step::Garble("N2 G28*18"), true),
    (Step::Arrive, true),
    (Step::Run, true),
    (Step::Hear("Error:checksum mismatch, Last Line: 1"), true),
    (Step::Hear("Resend: 2"), true),
    (Step::Hear("ok"), true),
    (Step::Hear("ok"), true),
    (Step::Send("M105"), true),
    (Step::Send("M114"), true),
    (Step::Send("M115"), true),
    (Step::Send("N2 G28*17"), true),
    (Step::Send("N3 G28*16"), true),
    (Step::Arrive, true),
    (Step::Arrive, true),
    (Step::Arrive, true),
    (Step::Arrive, true),
    (Step::Arrive, false),
    (Step::Run, true),
    (Step::Hear("ok T:21.30 /0.00 B:21.22 /0.00 @:0 B@:0"), true),
    (Step::Arrive, true),
    (Step::Arrive, false),
    (Step::Close, true),
    (Step::Close, false),
    (Step::Quiet, false),
    (Step::Open(0), false),
    (Step::Run, true),
];

// The greatest number, and events that can't happen.
const REFUSALS: [(Step, bool); 25] = [
    (Step::Send("M105"), false),
    (Step::Quiet, false),
    (Step::Close, false),
    (Step::Restart, false),
    (Step::Chat("echo:busy: processing"), false),
    (Step::Open(4_294_967_295), true),
    (Step::Open(0), false),
    (Step::Chat("ok"), false),
    (Step::Chat("Resend: 1"), false),
    (Step::Chat("start"), false),
    (Step::Chat("echo:busy: processing"), true),
    (Step::LoseReply(0), false),
    (Step::Hear("echo:busy: processing"), true),
    (Step::Send("N0 M110 N1*125"), true),
    (Step::Send("N2 G28"), true),
    (Step::Lose(2), false),
    (Step::Arrive, true),
    (Step::Arrive, true),
    (
        Step::Hear("Error:checksum mismatch, Last Line: 4294967295"),
        true,
    ),
    (Step::Hear("Resend: 4294967295"), true),
    (Step::Hear("ok"), true),
    (
        Step::Hear("Error:Line Number is not Last Line Number+1, Last Line: 4294967295"),
        true,
    ),
    (Step::Hear("Resend: 4294967295"), true),
    (Step::Hear("ok"), true),
    (Step::Quiet, false),
];

// A line that was run, is sent again, and comes to a printer that has restarted.
const RESTART: [(Step, bool); 19] = [
    (Step::Open(0), true),
    (Step::Send("N0 M110 N1*124"), true),
    (Step::Arrive, true),
    (Step::Run, true),
    (Step::Hear("ok"), true),
    (Step::Send("N2 G28*17"), true),
    (Step::Arrive, true),
    (Step::Run, true),
    (Step::Send("M105"), true),
    (Step::Arrive, true),
    (Step::Send("N2 G28*17"), true),
    (Step::Restart, true),
    (Step::Run, false),
    (Step::Arrive, true),
    (Step::Hear("ok"), true),
    (Step::Hear("start"), true),
    (
        Step::Hear("Error:Line Number is not Last Line Number+1, Last Line: 0"),
        true,
    ),
    (Step::Hear("Resend: 1"), true),
    (Step::Hear("ok"), true),
];

// The `Resend` of a refusal and an `ok` are lost.
const LOST_REPLIES: [(Step, bool); 18] = [
    (Step::Open(4), true),
    (Step::LoseReply(0), false),
    (Step::Send("N0 M110 N1*125"), true),
    (Step::Arrive, true),
    (Step::LoseReply(1), true),
    (Step::Hear("Error:checksum mismatch, Last Line: 4"), true),
    (Step::Hear("ok"), true),
    (Step::Quiet, false),
    (Step::Send("N0 M110 N1*124"), true),
    (Step::Arrive, true),
    (Step::Run, true),
    (Step::LoseReply(1), false),
    (Step::LoseReply(0), true),
    (Step::Quiet, false),
    (Step::Send("N2 G28*17"), true),
    (Step::Arrive, true),
    (Step::Run, true),
    (Step::Hear("ok N2 P15 B3"), true),
];

// Each event that allocates.
const ALLOCATING: [(Step, bool); 6] = [
    (Step::Open(0), true),
    (Step::Send("M105"), true),
    (Step::Arrive, true),
    (Step::Run, true),
    (Step::Restart, true),
    (Step::Chat("wait"), true),
];

#[test]
fn world_follows_steps(rt: HostRuntime) {
    assert_eq!(&rt; count_run(&rt, rt.alloc(), 4, &STEPS), 3);
}

#[test]
fn world_refuses_events(rt: HostRuntime) {
    assert_eq!(&rt; count_run(&rt, rt.alloc(), 4, &REFUSALS), 0);
}

#[test]
fn replies_are_lost(rt: HostRuntime) {
    assert_eq!(&rt; count_run_by(&rt, rt.alloc(), 4, LOSSY, &LOST_REPLIES), 2);
}

#[test]
fn printer_restarts(rt: HostRuntime) {
    assert_eq!(&rt; count_run(&rt, rt.alloc(), 4, &RESTART), 2);
}

#[test]
fn ample(rt: HostRuntime) {
    assert_eq!(&rt; count_run(&rt, rt.alloc(), 1, &ALLOCATING), 1);
}

// What an idle printer with two buffer slots does with these lines.
const ARRIVALS: [(&str, Taken); 6] = [
    (
        "N5 G28",
        Taken::Refused {
            reason: Reason::NoChecksum,
            last: 4,
        },
    ),
    (
        "N0 M110 N1*125",
        Taken::Refused {
            reason: Reason::Mismatch,
            last: 4,
        },
    ),
    ("N0 M110 N1*124", Taken::Accepted),
    (
        "N3 G28*16",
        Taken::Refused {
            reason: Reason::WrongNumber,
            last: 1,
        },
    ),
    ("N2 G28*17", Taken::Accepted),
    ("N3 G28*16", Taken::Full),
];

fn arrives(rt: &impl Abort, printer: &mut Printer, text: &str, want: Taken) {
    let bytes = text.as_bytes();
    assert!(rt; bytes.len() <= 95);
    assert_eq!(rt; printer.arrive(bytes), want);
}

// The printer runs its next line, and replies with the line's number and its free slots.
fn replies(rt: &impl Abort, printer: &mut Printer, number: u32, reply: &str) {
    let ran = printer.run_one().expect(rt, "a line that waits");
    assert!(rt; ran.number == Some(number) && ran.reply.as_slice() == reply.as_bytes());
}

#[test]
fn printer_answers(rt: HostRuntime) {
    let mut printer = Printer::new(4, 2, NUMBERED);
    for (text, want) in ARRIVALS {
        arrives(&rt, &mut printer, text, want);
    }
    replies(&rt, &mut printer, 1, "ok N0 P15 B0");
    replies(&rt, &mut printer, 2, "ok N2 P15 B1");
}
