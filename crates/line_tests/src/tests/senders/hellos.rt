//! Hellos with numbers of their own.
use super::*;

const HELLO_1: &str = "N1 M110 N1*125";

const HELLO_2: &str = "N2 M110 N1*126";

const HELLO_3: &str = "N3 M110 N1*127";

const HELLO_4: &str = "N4 M110 N1*120";

// No hello is answered: each goes out a limit later than the one before it did, and after the fifth the session ends.
const NONE_ANSWERED: [Step; 9] = [
    (0, Act::Begin, Gives::Frames(&[HELLO])),
    (29_999, Act::Tick, NOTHING),
    (30_000, Act::Tick, Gives::Frames(&[HELLO_1])),
    (89_999, Act::Tick, NOTHING),
    (90_000, Act::Tick, Gives::Frames(&[HELLO_2])),
    (180_000, Act::Tick, Gives::Frames(&[HELLO_3])),
    (300_000, Act::Tick, Gives::Frames(&[HELLO_4])),
    (449_999, Act::Tick, NOTHING),
    (450_000, Act::Tick, SILENCE),
];

#[test]
fn no_hello_answered(rt: HostRuntime) -> Result<(), Fail> {
    let mut sender = Sender::new(rt.alloc(), 4, true, LIMIT)?;
    play(&rt, &mut sender, &NONE_ANSWERED);
    Ok(())
}

// The `ok` of the first hello comes after the second one was sent: only the second one's makes the session ready. Its number is
// also that of a line.
const LATE_OK: [Step; 8] = [
    (0, Act::Begin, Gives::Frames(&[HELLO])),
    (30_000, Act::Tick, Gives::Frames(&[HELLO_1])),
    (90_000, Act::Tick, Gives::Frames(&[HELLO_2])),
    (91_000, Act::OkOf(0), NOTHING),
    (91_001, Act::OkOf(1), NOTHING),
    (91_002, Act::OkOf(2), NOTHING),
    (91_002, Act::Issue("G28"), Gives::Frames(&[N2])),
    (91_003, Act::OkOf(2), NOTHING),
];

#[test]
fn late_ok_of_a_hello(rt: HostRuntime) -> Result<(), Fail> {
    let mut sender = Sender::new(rt.alloc(), 4, true, LIMIT)?;
    play(&rt, &mut sender, &LATE_OK);
    check_counts(&rt, &sender, 1, 1, 4);
    Ok(())
}

// A hello comes corrupted: the next one goes out at once. After ten of them none is left.
#[test]
fn refused_hellos(rt: HostRuntime) -> Result<(), Fail> {
    let mut sender = Sender::new(rt.alloc(), 4, true, LIMIT)?;
    let refused = [
        (0, Act::Begin, Gives::Frames(&[HELLO])),
        (1, Act::Resend(5), Gives::Frames(&[HELLO_1])),
        (1, Act::Ok, NOTHING),
        (2, Act::Resend(5), Gives::Frames(&[HELLO_2])),
        (3, Act::OkOf(2), NOTHING),
        (3, Act::Issue("G28"), Gives::Frames(&[N2])),
    ];
    play(&rt, &mut sender, &refused);
    play(
        &rt,
        &mut sender,
        &[(4, Act::Begin, Gives::Frames(&[HELLO]))],
    );
    let mut line = Line::new();
    for _ in 1..10 {
        let _ = sender.hear(&Reply::Resend { number: 5 }, 5);
        assert!(rt; sender.next_frame(5, &mut line).is_some());
    }
    play(&rt, &mut sender, &[(6, Act::Resend(5), NOTHING)]);
    Ok(())
}
