//! Sessions whose hello or whose `ok` is lost.
use super::*;

const MISSING: Gives = Gives::Ends(SessionEnd::LostOk { limits: 20 });

// The hello is lost: it isn't sent again, and the session ends after five limits.
const LOST_HELLO: [Step; 7] = [
    (0, Act::Begin, Gives::Frames(&[HELLO])),
    (30_000, Act::Tick, NOTHING),
    (60_000, Act::Tick, NOTHING),
    (90_000, Act::Tick, NOTHING),
    (149_999, Act::Tick, NOTHING),
    (179_999, Act::Tick, SILENCE),
    (180_000, Act::Begin, Gives::Frames(&[HELLO])),
];

#[test]
fn lost_hello(rt: HostRuntime) -> Result<(), Fail> {
    let mut sender = Sender::new(rt.alloc(), 4, false, LIMIT)?;
    play(&rt, &mut sender, &LOST_HELLO);
    Ok(())
}

// The hello is lost, and the printer says other things within each limit: the session ends after five limits too.
const LOST_HELLO_BUSY: [Step; 9] = [
    (0, Act::Begin, Gives::Frames(&[HELLO])),
    (10_000, Act::Hear(Reply::Busy), NOTHING),
    (30_000, Act::Tick, NOTHING),
    (40_000, Act::Hear(Reply::Other), NOTHING),
    (60_000, Act::Tick, NOTHING),
    (90_000, Act::Tick, NOTHING),
    (120_000, Act::Tick, NOTHING),
    (130_000, Act::Hear(Reply::Busy), NOTHING),
    (150_000, Act::Tick, SILENCE),
];

#[test]
fn lost_hello_busy(rt: HostRuntime) -> Result<(), Fail> {
    let mut sender = Sender::new(rt.alloc(), 4, false, LIMIT)?;
    play(&rt, &mut sender, &LOST_HELLO_BUSY);
    Ok(())
}

// A line is accepted, and its `ok` is lost.
const LOST_OK: [Step; 2] = [
    (200, Act::Issue("G28"), Gives::Frames(&[N2])),
    (30_200, Act::Tick, Gives::Frames(&[N2])),
];

// In one limit the printer asks for the line after the only one.
fn asks_for_the_next(rt: &impl Abort, sender: &mut Sender, round: u16, gives: Gives) {
    let moment = 30_300 + u64::from(round) * 30_100;
    let steps = [
        (moment, Act::Resend(3), NOTHING),
        (moment, Act::Ok, NOTHING),
        (moment + 30_000, Act::Tick, gives),
    ];
    play(rt, sender, &steps);
}

// It does so in each limit: the session ends in the twentieth.
#[test]
fn lost_ok(rt: HostRuntime) -> Result<(), Fail> {
    let mut sender = Sender::new(rt.alloc(), 1, false, LIMIT)?;
    gets_garbled_hello(&rt, &mut sender);
    play(&rt, &mut sender, &LOST_OK);
    for round in 0..19u16 {
        asks_for_the_next(&rt, &mut sender, round, Gives::Frames(&[N2]));
    }
    asks_for_the_next(&rt, &mut sender, 19, MISSING);
    Ok(())
}

// After nineteen such limits the printer says that it is at work, and at last acknowledges the line.
const BUSY_THEN_OK: [Step; 5] = [
    (602_200, Act::Resend(3), NOTHING),
    (602_200, Act::Ok, NOTHING),
    (602_300, Act::Hear(Reply::Busy), NOTHING),
    (632_200, Act::Tick, Gives::Frames(&[N2])),
    (632_300, Act::Ok, NOTHING),
];

#[test]
fn lost_ok_busy(rt: HostRuntime) -> Result<(), Fail> {
    let mut sender = Sender::new(rt.alloc(), 1, false, LIMIT)?;
    gets_garbled_hello(&rt, &mut sender);
    play(&rt, &mut sender, &LOST_OK);
    for round in 0..19u16 {
        asks_for_the_next(&rt, &mut sender, round, Gives::Frames(&[N2]));
    }
    play(&rt, &mut sender, &BUSY_THEN_OK);
    Ok(())
}
