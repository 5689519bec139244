//! How replies end a session.
use super::*;

// A sender of 8 lines, of which 5 are acknowledged.
const FIVE_OF_EIGHT: [Step; 17] = [
    (0, Act::Begin, Gives::Frames(&[HELLO])),
    (0, Act::Ok, NOTHING),
    (0, Act::Issue("G28"), Gives::Frames(&[N2])),
    (0, Act::Ok, NOTHING),
    (0, Act::Issue("G28"), Gives::Frames(&["N3 G28*16"])),
    (0, Act::Ok, NOTHING),
    (0, Act::Issue("G28"), Gives::Frames(&["N4 G28*23"])),
    (0, Act::Ok, NOTHING),
    (0, Act::Issue("G28"), Gives::Frames(&["N5 G28*22"])),
    (0, Act::Ok, NOTHING),
    (0, Act::Issue("G28"), Gives::Frames(&["N6 G28*21"])),
    (0, Act::Ok, NOTHING),
    (0, Act::Issue("G28"), Gives::Frames(&["N7 G28*20"])),
    (0, Act::Issue("G28"), Gives::Frames(&["N8 G28*27"])),
    (0, Act::Issue("G28"), Gives::Frames(&["N9 G28*26"])),
    (1, Act::Resend(10), NOTHING),
    (1, Act::OkOf(8), NOTHING),
];

// How a reply ends the session of such a sender, which stays ended.
const ENDS: [(Act, SessionEnd); 4] = [
    (
        Act::OkOf(8),
        SessionEnd::Counts {
            number: 8,
            expected: 7,
        },
    ),
    (Act::Resend(6), SessionEnd::AskedBack { asked: 6, acked: 6 }),
    (
        Act::Resend(11),
        SessionEnd::AskedAhead {
            asked: 11,
            issued: 9,
        },
    ),
    (Act::Hear(Reply::Start), SessionEnd::Restarted),
];

fn ends_by(rt: &impl Abort, sender: &mut Sender, act: Act, end: SessionEnd) {
    play(rt, sender, &FIVE_OF_EIGHT);
    check_counts(rt, sender, 5, 8, 1);
    play(rt, sender, &[(2, act, Gives::Ends(end))]);
    play(rt, sender, &[(90_000, Act::Tick, Gives::Ends(end))]);
    check_counts(rt, sender, 5, 8, 0);
}

#[test]
fn ends_of_a_session(rt: HostRuntime) -> Result<(), Fail> {
    for (act, end) in ENDS {
        let mut sender = Sender::new(rt.alloc(), 4, false, LIMIT)?;
        ends_by(&rt, &mut sender, act, end);
    }
    Ok(())
}
