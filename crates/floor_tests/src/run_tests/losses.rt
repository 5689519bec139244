//! Links that lose and corrupt lines, and printers whose `ok`s have numbers and get lost.
use super::rows::assert_plain;
use super::shops::{PLAIN, with_wires};
use printer_link::Fate;
use printer_link::Fate::{Garbled, Lost, Whole};
use test_makers::{CLEAN, Shop, Wires};

const FATES: &[Fate] = &[
    Whole, Lost, Whole, Garbled, Whole, Whole, Lost, Whole, Whole, Garbled, Whole, Whole,
];

// Some lines of each link are lost or corrupted, none twice in a row. What the printers run doesn't change. A lost line is found by a
// second of silence: a run whose clock doesn't go on would use up its rounds.
#[test]
fn harmed_lines(rt: HostRuntime) {
    let fates = FATES;
    let shop = with_wires(&PLAIN, Wires { fates, ..CLEAN });
    let moment = assert_plain(&rt, rt.alloc(), &shop);
    assert!(rt; moment >= 1_000);
}

// The plain shop over printers whose `ok`s have numbers, and these replies of each are lost, counted from 1.
fn with_lost(lost: &'static [u64]) -> Shop {
    let numbered = true;
    with_wires(
        &PLAIN,
        Wires {
            numbered,
            lost,
            ..CLEAN
        },
    )
}

// The `ok`s have numbers: those of some lines are lost, and a later one stands for them.
#[test]
fn lost_oks(rt: HostRuntime) {
    assert_plain(&rt, rt.alloc(), &with_lost(&[]));
    assert_plain(&rt, rt.alloc(), &with_lost(&[5]));
    assert_plain(&rt, rt.alloc(), &with_lost(&[6, 9]));
}
