//! Sessions that go on beyond the window, since an `ok` was lost.
use super::*;

// The window is full, and both `ok`s are lost: after a limit the printer says that it has all lines, and one more may be
// issued. Its `ok` makes the others good, and the window is as before.
const BOTH_LOST: [Step; 9] = [
    (0, Act::Begin, Gives::Frames(&[HELLO])),
    (0, Act::OkOf(0), NOTHING),
    (0, Act::Issue("G28"), Gives::Frames(&[N2])),
    (0, Act::Issue("G1 X10"), Gives::Frames(&[N3])),
    (30_000, Act::Tick, Gives::Frames(&[N2, N3])),
    (30_001, Act::Resend(4), NOTHING),
    (30_001, Act::Ok, NOTHING),
    (30_002, Act::Resend(4), NOTHING),
    (30_002, Act::Ok, NOTHING),
];

#[test]
fn lost_oks_of_a_full_window(rt: HostRuntime) -> Result<(), Fail> {
    let mut sender = Sender::new(rt.alloc(), 2, true, LIMIT)?;
    play(&rt, &mut sender, &BOTH_LOST);
    check_counts(&rt, &sender, 0, 2, 1);
    play(
        &rt,
        &mut sender,
        &[(30_003, Act::Issue("G1 X20"), Gives::Frames(&[N4]))],
    );
    check_counts(&rt, &sender, 0, 3, 0);
    play(&rt, &mut sender, &[(30_004, Act::OkOf(4), NOTHING)]);
    check_counts(&rt, &sender, 3, 3, 2);
    Ok(())
}

// Without a limit before it such a Resend widens nothing, nor does it if `ok`s are counted.
#[test]
fn no_wider_window(rt: HostRuntime) -> Result<(), Fail> {
    let mut sender = Sender::new(rt.alloc(), 2, true, LIMIT)?;
    play(&rt, &mut sender, &BOTH_LOST[..4]);
    play(&rt, &mut sender, &[(1, Act::Resend(4), NOTHING)]);
    check_counts(&rt, &sender, 0, 2, 0);
    let mut counting = Sender::new(rt.alloc(), 2, false, LIMIT)?;
    play(&rt, &mut counting, &BOTH_LOST[..6]);
    check_counts(&rt, &counting, 0, 2, 0);
    Ok(())
}
