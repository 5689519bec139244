//! Sessions whose `ok`s count only by the numbers that they name.
use super::*;

// The `ok` of the hello names 0; one without a number says nothing. An `ok` acknowledges all lines through the one that it
// names, and a Resend none.
const NAMED: [Step; 11] = [
    (0, Act::Begin, Gives::Frames(&[HELLO])),
    (1, Act::Ok, NOTHING),
    (2, Act::OkOf(0), NOTHING),
    (3, Act::Issue("G28"), Gives::Frames(&[N2])),
    (3, Act::Issue("G1 X10"), Gives::Frames(&[N3])),
    (3, Act::Issue("G1 X20"), Gives::Frames(&[N4])),
    (4, Act::OkOf(3), NOTHING),
    (5, Act::OkOf(2), NOTHING),
    (6, Act::Ok, NOTHING),
    (7, Act::Resend(4), Gives::Frames(&[N4])),
    (7, Act::Ok, NOTHING),
];

#[test]
fn named(rt: HostRuntime) -> Result<(), Fail> {
    let mut sender = Sender::new(rt.alloc(), 4, true, LIMIT)?;
    play(&rt, &mut sender, &NAMED);
    check_counts(&rt, &sender, 2, 3, 3);
    play(&rt, &mut sender, &[(8, Act::OkOf(4), NOTHING)]);
    check_counts(&rt, &sender, 3, 3, 4);
    Ok(())
}

// The `ok` of N3 is lost: it goes out again at the limit, and the Resend of N4 doesn't acknowledge it. The `ok` of N4 does.
const LOST: [Step; 9] = [
    (0, Act::Begin, Gives::Frames(&[HELLO])),
    (0, Act::OkOf(0), NOTHING),
    (0, Act::Issue("G28"), Gives::Frames(&[N2])),
    (0, Act::Issue("G1 X10"), Gives::Frames(&[N3])),
    (1, Act::OkOf(2), NOTHING),
    (30_001, Act::Tick, Gives::Frames(&[N3])),
    (30_002, Act::Hear(Reply::Error), NOTHING),
    (30_002, Act::Resend(4), NOTHING),
    (30_002, Act::Ok, NOTHING),
];

#[test]
fn lost_named_ok(rt: HostRuntime) -> Result<(), Fail> {
    let mut sender = Sender::new(rt.alloc(), 4, true, LIMIT)?;
    play(&rt, &mut sender, &LOST);
    check_counts(&rt, &sender, 1, 2, 3);
    let rest = [
        (30_003, Act::Issue("G1 X20"), Gives::Frames(&[N4])),
        (30_004, Act::OkOf(4), NOTHING),
    ];
    play(&rt, &mut sender, &rest);
    check_counts(&rt, &sender, 3, 3, 4);
    Ok(())
}

// An `ok` of a line that wasn't issued ends the session.
const AHEAD: [Step; 4] = [
    (0, Act::Begin, Gives::Frames(&[HELLO])),
    (0, Act::OkOf(0), NOTHING),
    (0, Act::Issue("G28"), Gives::Frames(&[N2])),
    (
        1,
        Act::OkOf(3),
        Gives::Ends(SessionEnd::Counts {
            number: 3,
            expected: 2,
        }),
    ),
];

#[test]
fn ok_of_no_line(rt: HostRuntime) -> Result<(), Fail> {
    let mut sender = Sender::new(rt.alloc(), 4, true, LIMIT)?;
    play(&rt, &mut sender, &AHEAD);
    Ok(())
}
