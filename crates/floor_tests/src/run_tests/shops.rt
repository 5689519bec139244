//! The shop of most tests, its floor, and what a run of it comes to.
use octo_floor_bay::{FloorEnd, Why};
use print_queue::Outcome;
use printer_link::MemoryLink;
use std::alloc::Global;
use std::process::Abort;
use test_makers::{CLEAN, MemoryFloor, Shop, Wires};

// The rounds within which each run here ends.
pub(super) const TURNS: u64 = 5_000;

// Three commands.
pub(super) const PART: &[u8] = b"G28\nG1 X10\nG1 X11\n";

// Forty commands. They take at least eighty calls of a link, one to send each line and one to receive its `ok`.
pub(super) const LONG: &[u8] =
    b"G1 X0\nG1 X1\nG1 X2\nG1 X3\nG1 X4\nG1 X5\nG1 X6\nG1 X7\nG1 X8\nG1 X9
G1 X0\nG1 X1\nG1 X2\nG1 X3\nG1 X4\nG1 X5\nG1 X6\nG1 X7\nG1 X8\nG1 X9
G1 X0\nG1 X1\nG1 X2\nG1 X3\nG1 X4\nG1 X5\nG1 X6\nG1 X7\nG1 X8\nG1 X9
G1 X0\nG1 X1\nG1 X2\nG1 X3\nG1 X4\nG1 X5\nG1 X6\nG1 X7\nG1 X8\nG1 X9\n";

// Two printers with links that are clean, two copies of job-1 in PLA, and one of job-2 in PETG.
pub(super) const PLAIN: Shop = Shop {
    materials: &["PLA", "PETG"],
    entries: &[
        ("job-1", "a.gcode", 5, 2, "PLA"),
        ("job-2", "b.gcode", 9, 1, "PETG"),
    ],
    files: &[("a.gcode", PART), ("b.gcode", b"G28\nG1 Y20\nG1 Y21\n")],
    wires: CLEAN,
    keeper: &[],
    shelf: &[],
};

// The same, with a second file of forty commands.
pub(super) const LONG_SECOND: Shop = Shop {
    files: &[("a.gcode", PART), ("b.gcode", LONG)],
    ..PLAIN
};

// Eight printers with PLA, and ten copies.
pub(super) const EIGHT: Shop = Shop {
    materials: &["PLA", "PLA", "PLA", "PLA", "PLA", "PLA", "PLA", "PLA"],
    entries: &[("job-1", "a.gcode", 5, 10, "PLA")],
    files: &[("a.gcode", PART)],
    ..PLAIN
};

// The plain shop, and these calls of the keeper fail, counted from 1.
pub(super) fn with_keeper(keeper: &'static [u64]) -> Shop {
    Shop { keeper, ..PLAIN }
}

// The plain shop, and these calls of the shelf fail, counted from 1. Two put the files.
pub(super) fn with_shelf(shelf: &'static [u64]) -> Shop {
    Shop { shelf, ..PLAIN }
}

// A shop with these links.
pub(super) fn with_wires(shop: &Shop, wires: Wires) -> Shop {
    Shop { wires, ..*shop }
}

// A shop of whose second link these calls fail, counted from 1.
pub(super) fn with_fails(shop: &Shop, fails: &'static [u64]) -> Shop {
    with_wires(shop, Wires { fails, ..CLEAN })
}

pub(super) const DONE: Option<Outcome> = Some(Outcome::Done);

pub(super) const FAILED: Option<Outcome> = Some(Outcome::Failed);

pub(super) const ACTIVE: Option<Outcome> = Some(Outcome::Active);

// What a run comes to: prints, done, failed, left, lost.
pub(super) type Counts = (u32, u32, u32, u64, u8);

// The floor of a shop.
pub(super) fn floor_of(rt: &impl Abort, alloc: Global, shop: &Shop) -> MemoryFloor {
    MemoryFloor::new(alloc, shop).expect(rt, "no memory")
}

// A run ended for this reason, and came to these counts.
pub(super) fn assert_end(rt: &impl Abort, end: &FloorEnd, why: Why, wanted: Counts) {
    assert_eq!(rt; end.why, why);
    let counts = (end.prints, end.done, end.failed, end.left, end.lost);
    assert_eq!(rt; counts, wanted);
}

// A run of at most `turns` rounds ends for this reason, and comes to these counts. The keeper's tables have as many copies left.
pub(super) fn assert_run(
    rt: &impl Abort,
    floor: &mut MemoryFloor,
    turns: u64,
    why: Why,
    wanted: Counts,
) {
    let end = floor.run(turns);
    assert_end(rt, &end, why, wanted);
    assert_eq!(rt; floor.left(), end.left);
}

// The first three records have these outcomes.
pub(super) fn assert_outcomes(rt: &impl Abort, floor: &MemoryFloor, wanted: [Option<Outcome>; 3]) {
    assert_eq!(rt;
        [floor.outcome(0), floor.outcome(1), floor.outcome(2)],
        wanted
    );
}

// The run of a shop ends for this reason, and comes to these counts and records.
pub(super) fn assert_shop(
    rt: &impl Abort,
    alloc: Global,
    shop: &Shop,
    why: Why,
    wanted: Counts,
    outcomes: [Option<Outcome>; 3],
) {
    let mut floor = floor_of(rt, alloc, shop);
    assert_run(rt, &mut floor, TURNS, why, wanted);
    assert_outcomes(rt, &floor, outcomes);
    floor.end();
}

// The place after a line that a printer executed: it is the next one of these, if it is none that the host adds to a file.
fn place_after(rt: &impl Abort, text: &[u8], wanted: &[&[u8]], place: usize) -> usize {
    if text == b"M105".as_slice() || text == b"M400".as_slice() {
        return place;
    }
    assert!(rt; wanted.get(place) == Some(&text));
    place.saturating_add(1)
}

// A printer ran these commands in order, each once, beside questions for the temperatures, `M105`, and waits for the end of its
// moves, `M400`.
pub(super) fn assert_ran(rt: &impl Abort, link: &MemoryLink, wanted: &[&[u8]]) {
    let executed = link.executed(1).expect(rt, "no memory");
    let mut place: usize = 0;
    for line in executed.as_slice() {
        place = place_after(rt, line.text.as_slice(), wanted, place);
    }
    assert_eq!(rt; place, wanted.len());
    drop(executed);
}
