//! Sessions of a sender, step by step: each call with the frames that follow it.
ghost use Rattle.std.specs.Prelude.{◌≡◌, [], ◌∷◌, None};
ghost use Rattle.send_window.specs.Counting.{acked_of};

mod ends;
mod hellos;
mod lost;
mod named;
mod wider;

use byte_text::{Line, has_byte};
use marlin_reply::Reply;
use send_window::{Sender, SessionEnd};
use std::alloc::Global;
use std::process::Abort;
use std::test::*;

const LIMIT: u64 = 30_000;

const HELLO: &str = "N0 M110 N1*124";

const N2: &str = "N2 G28*17";

const N3: &str = "N3 G1 X10*82";

const N4: &str = "N4 G1 X20*86";

const N5: &str = "N5 G1 X30*86";

#[derive(Clone, Copy)]
enum Act {
    Begin,
    Issue(&'static str),
    // An `ok` without numbers.
    Ok,
    // An `ok` of the line with this number.
    OkOf(u32),
    Resend(u32),
    Hear(Reply),
    Tick,
}

#[derive(Clone, Copy)]
enum Gives {
    // These frames go out, and no more.
    Frames(&'static [&'static str]),
    // The session is over, and nothing goes out.
    Ends(SessionEnd),
}

// At a moment something happens, and gives this.
type Step = (u64, Act, Gives);

const NOTHING: Gives = Gives::Frames(&[]);

const SILENCE: Gives = Gives::Ends(SessionEnd::NoAnswer { silent: 5 });

impl Gives {
    fn answer(self) -> Result<(), SessionEnd> {
        match self {
            Gives::Frames(_) => Ok(()),
            Gives::Ends(end) => Err(end),
        }
    }

    fn frames(self) -> &'static [&'static str] {
        match self {
            Gives::Frames(frames) => frames,
            Gives::Ends(_) => &[],
        }
    }
}

fn issue(rt: &impl Abort, sender: &mut Sender, text: &[u8]) {
    assert!(rt; sender.room() > 0);
    assert!(rt; !text.is_empty() && text.len() <= 79);
    assert!(rt; !has_byte(text, b'*'));
    assert!(rt; !has_byte(text, b'\n'));
    let number = sender.push(text);
    assert_eq!(rt; number - 1, sender.issued());
}

fn ok() -> Reply {
    Reply::Ok {
        number: None,
        planner: None,
        block: None,
        temps: None,
    }
}

fn ok_of(number: u32) -> Reply {
    Reply::Ok {
        number: Some(number),
        planner: Some(15),
        block: Some(3),
        temps: None,
    }
}

fn perform(rt: &impl Abort, sender: &mut Sender, act: Act, moment: u64) -> Result<(), SessionEnd> {
    let reply = match act {
        Act::Begin => {
            sender.hello();
            return Ok(());
        }
        Act::Issue(text) => {
            issue(rt, sender, text.as_bytes());
            return Ok(());
        }
        Act::Tick => return sender.tick(moment),
        Act::Ok => ok(),
        Act::OkOf(number) => ok_of(number),
        Act::Resend(number) => Reply::Resend { number },
        Act::Hear(reply) => reply,
    };
    sender.hear(&reply, moment)
}

// These frames are sent, and no more.
fn check_frames(rt: &impl Abort, sender: &mut Sender, moment: u64, frames: &[&str], i: usize) {
    let mut line = Line::new();
    for frame in frames {
        let number = sender.next_frame(moment, &mut line);
        assert!(rt; number.is_some(), "step {i}");
        assert!(rt; line.as_slice() == frame.as_bytes(), "step {i}");
    }
    assert_eq!(rt; sender.next_frame(moment, &mut line), None, "step {i}");
}

fn check_counts(rt: &impl Abort, sender: &Sender, acked: u32, issued: u32, room: usize) {
    assert_eq!(rt; sender.acked(), acked);
    assert_eq!(rt; sender.issued(), issued);
    assert_eq!(rt; sender.room(), room);
}

fn play(rt: &impl Abort, sender: &mut Sender, steps: &[Step]) {
    for (i, (moment, act, gives)) in steps.iter().enumerate() {
        let answer = perform(rt, sender, *act, *moment);
        assert_eq!(rt; answer, gives.answer(), "step {i}");
        check_frames(rt, sender, *moment, gives.frames(), i);
    }
}

// A line is sent again after a limit in silence, though the printer has it: it asks for the one after it.
const LATE_RESEND: [Step; 7] = [
    (0, Act::Begin, Gives::Frames(&[HELLO])),
    (0, Act::Ok, NOTHING),
    (0, Act::Issue("G28"), Gives::Frames(&[N2])),
    (29_999, Act::Tick, NOTHING),
    (30_000, Act::Tick, Gives::Frames(&[N2])),
    (30_001, Act::Resend(3), NOTHING),
    (30_002, Act::Ok, NOTHING),
];

#[test]
fn late_resend(rt: HostRuntime) -> Result<(), Fail> {
    let mut sender = Sender::new(rt.alloc(), 4, false, LIMIT)?;
    play(&rt, &mut sender, &LATE_RESEND);
    check_counts(&rt, &sender, 0, 1, 3);
    play(&rt, &mut sender, &[(30_003, Act::Ok, NOTHING)]);
    check_counts(&rt, &sender, 1, 1, 4);
    Ok(())
}

// Four lines, the second of which is lost: the printer asks for it at the third and at the fourth.
const REPEATED_RESEND: [Step; 14] = [
    (0, Act::Begin, Gives::Frames(&[HELLO])),
    (0, Act::Ok, NOTHING),
    (0, Act::Issue("G28"), Gives::Frames(&[N2])),
    (0, Act::Issue("G1 X10"), Gives::Frames(&[N3])),
    (0, Act::Issue("G1 X20"), Gives::Frames(&[N4])),
    (0, Act::Issue("G1 X30"), Gives::Frames(&[N5])),
    (1, Act::Ok, NOTHING),
    (2, Act::Resend(3), Gives::Frames(&[N3, N4, N5])),
    (2, Act::Ok, NOTHING),
    (3, Act::Resend(3), NOTHING),
    (3, Act::Ok, NOTHING),
    (4, Act::Ok, NOTHING),
    (5, Act::Ok, NOTHING),
    (6, Act::Ok, NOTHING),
];

#[test]
fn repeated_resend(rt: HostRuntime) -> Result<(), Fail> {
    let mut sender = Sender::new(rt.alloc(), 4, false, LIMIT)?;
    play(&rt, &mut sender, &REPEATED_RESEND);
    check_counts(&rt, &sender, 4, 4, 4);
    Ok(())
}

// Three lines, the first of which is lost twice: two Resends are ignored, and the third one counts.
const THIRD_RESEND: [Step; 17] = [
    (0, Act::Begin, Gives::Frames(&[HELLO])),
    (0, Act::Ok, NOTHING),
    (0, Act::Issue("G28"), Gives::Frames(&[N2])),
    (0, Act::Issue("G1 X10"), Gives::Frames(&[N3])),
    (0, Act::Issue("G1 X20"), Gives::Frames(&[N4])),
    (1, Act::Resend(2), Gives::Frames(&[N2, N3, N4])),
    (1, Act::Ok, NOTHING),
    (2, Act::Resend(2), NOTHING),
    (2, Act::Ok, NOTHING),
    (3, Act::Resend(2), NOTHING),
    (3, Act::Ok, NOTHING),
    (4, Act::Resend(2), Gives::Frames(&[N2, N3, N4])),
    (4, Act::Ok, NOTHING),
    (5, Act::OkOf(2), NOTHING),
    (5, Act::OkOf(3), NOTHING),
    (5, Act::OkOf(4), NOTHING),
    (5, Act::OkOf(5), NOTHING),
];

#[test]
fn third_resend(rt: HostRuntime) -> Result<(), Fail> {
    let mut sender = Sender::new(rt.alloc(), 16, false, LIMIT)?;
    play(&rt, &mut sender, &THIRD_RESEND);
    check_counts(&rt, &sender, 3, 3, 16);
    Ok(())
}

// The printer counted from 4 and got a corrupted hello.
const GARBLED_HELLO: [Step; 5] = [
    (0, Act::Begin, Gives::Frames(&[HELLO])),
    (1, Act::Hear(Reply::Error), NOTHING),
    (1, Act::Resend(5), Gives::Frames(&[HELLO])),
    (1, Act::Ok, NOTHING),
    (2, Act::Hear(Reply::Start), NOTHING),
];

fn gets_garbled_hello(rt: &impl Abort, sender: &mut Sender) {
    check_counts(rt, sender, 0, 0, 0);
    play(rt, sender, &GARBLED_HELLO);
    check_counts(rt, sender, 0, 0, 0);
    play(rt, sender, &[(100, Act::Ok, NOTHING)]);
    check_counts(rt, sender, 0, 0, 1);
    assert!(rt; sender.ready());
}

#[test]
fn garbled_hello(rt: HostRuntime) -> Result<(), Fail> {
    let mut sender = Sender::new(rt.alloc(), 1, false, LIMIT)?;
    gets_garbled_hello(&rt, &mut sender);
    Ok(())
}

// A line passes a limit in which the printer was busy, and then nobody answers.
const BUSY_THEN_SILENT: [Step; 10] = [
    (200, Act::Issue("G28"), Gives::Frames(&[N2])),
    (20_000, Act::Hear(Reply::Busy), NOTHING),
    (30_199, Act::Tick, NOTHING),
    (30_200, Act::Tick, Gives::Frames(&[N2])),
    (60_200, Act::Tick, Gives::Frames(&[N2])),
    (90_200, Act::Tick, Gives::Frames(&[N2])),
    (120_200, Act::Tick, Gives::Frames(&[N2])),
    (150_200, Act::Tick, Gives::Frames(&[N2])),
    (180_200, Act::Tick, SILENCE),
    (180_201, Act::Ok, SILENCE),
];

#[test]
fn busy_then_silent(rt: HostRuntime) -> Result<(), Fail> {
    let mut sender = Sender::new(rt.alloc(), 1, false, LIMIT)?;
    gets_garbled_hello(&rt, &mut sender);
    play(&rt, &mut sender, &BUSY_THEN_SILENT);
    Ok(())
}

// The one call that takes memory.
#[test]
fn ample(rt: HostRuntime) -> Result<(), Fail> {
    let sender = Sender::new(rt.alloc(), 16, false, 1)?;
    check_counts(&rt, &sender, 0, 0, 0);
    assert!(rt; !sender.ready());
    Ok(())
}

// What replies alone acknowledge, the first `ok` being the hello's: a line corrupted once, a line lost with two after
// it, and a corrupted hello.
fn counted_replies()
    ensures garbled_line { acked_of
        (Reply.Ok None None None None ∷ Reply.Error ∷ Reply.Resend 2 ∷ Reply.Ok None None None None
        ∷ Reply.Ok None None None None ∷ []) ≡ 1 }
    ensures lost_line { acked_of (Reply.Ok None None None None ∷ Reply.Ok None None None None
        ∷ Reply.Resend 3 ∷ Reply.Ok None None None None ∷ Reply.Resend 3
        ∷ Reply.Ok None None None None ∷ Reply.Ok None None None None ∷ Reply.Ok None None None None
        ∷ Reply.Ok None None None None ∷ []) ≡ 4 }
    ensures garbled_hello { acked_of
        (Reply.Error ∷ Reply.Resend 5 ∷ Reply.Ok None None None None ∷ Reply.Ok None None None None
        ∷ Reply.Busy ∷ Reply.Ok None None None None ∷ []) ≡ 1 }
    ensures nothing { acked_of [] ≡ 0 }
{}
