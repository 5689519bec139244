//! Whole runs without a fault of the tables or the files: what is started, and how they end.
use super::shops::{
    DONE, EIGHT, FAILED, LONG_SECOND, PART, PLAIN, TURNS, assert_outcomes, assert_ran, assert_run,
    assert_shop, floor_of, with_fails,
};
use octo_floor_bay::Why;
use std::alloc::Global;
use std::process::Abort;
use test_makers::{MemoryFloor, Shop};

// The commands of PART, once and twice.
const ONCE: &[&[u8]] = &[b"G28", b"G1 X10", b"G1 X11"];

const TWICE: &[&[u8]] = &[b"G28", b"G1 X10", b"G1 X11", b"G28", b"G1 X10", b"G1 X11"];

// What the printers of the plain shop run.
fn assert_plain_lines(rt: &impl Abort, floor: &MemoryFloor) {
    assert_ran(rt, &floor.links().a, TWICE);
    assert_ran(rt, &floor.links().b, &[b"G28", b"G1 Y20", b"G1 Y21"]);
    assert_eq!(rt; floor.links().c.sends(), 0);
}

// The run of a shop with the queue of the plain one: two copies on the printer with PLA, and one on that with PETG. What each printer
// ran is compared as well. Returns the moment of its end, in milliseconds.
pub(super) fn assert_plain(rt: &impl Abort, alloc: Global, shop: &Shop) -> u64 {
    let mut floor = floor_of(rt, alloc, shop);
    assert_run(rt, &mut floor, TURNS, Why::Over, (3, 3, 0, 0, 0));
    assert_outcomes(rt, &floor, [DONE, DONE, DONE]);
    assert_eq!(rt; floor.outcome(3), None);
    assert_plain_lines(rt, &floor);
    let moment = floor.moment();
    floor.end();
    moment
}

#[test]
fn ample(rt: HostRuntime) {
    assert_plain(&rt, rt.alloc(), &PLAIN);
}

// A printer without an entry prints nothing, and an entry without a printer stays.
const NO_PETG: Shop = Shop {
    materials: &["PLA", "TPU", "PLA"],
    ..PLAIN
};

#[test]
fn materials_differ(rt: HostRuntime) {
    let records = [DONE, DONE, None];
    assert_shop(
        &rt,
        rt.alloc(),
        &NO_PETG,
        Why::Over,
        (2, 2, 0, 1, 0),
        records,
    );
}

// The first two printers ran a file twice, and the others once.
fn assert_eight_lines(rt: &impl Abort, floor: &MemoryFloor) {
    let links = floor.links();
    assert_ran(rt, &links.a, TWICE);
    assert_ran(rt, &links.b, TWICE);
    assert_ran(rt, &links.c, ONCE);
    assert_ran(rt, &links.d, ONCE);
    assert_ran(rt, &links.e, ONCE);
    assert_ran(rt, &links.f, ONCE);
    assert_ran(rt, &links.g, ONCE);
    assert_ran(rt, &links.h, ONCE);
}

// Eight printers share ten copies: each takes one, and the first two, which are ready first, another one.
#[test]
fn eight_printers(rt: HostRuntime) {
    let mut floor = floor_of(&rt, rt.alloc(), &EIGHT);
    assert_run(&rt, &mut floor, TURNS, Why::Over, (10, 10, 0, 0, 0));
    assert_eight_lines(&rt, &floor);
    floor.end();
}

// A printer is lost when its link isn't made, and before it is ready (the fourth call). The entry of a print that wasn't started stays in
// the queue.
#[test]
fn printers_lost_before_their_prints(rt: HostRuntime) {
    let records = [DONE, DONE, None];
    let shop = with_fails(&PLAIN, &[1]);
    assert_shop(&rt, rt.alloc(), &shop, Why::Over, (2, 2, 0, 1, 1), records);
    let shop = with_fails(&PLAIN, &[4]);
    assert_shop(&rt, rt.alloc(), &shop, Why::Over, (2, 2, 0, 1, 1), records);
}

// It is lost in its print.
#[test]
fn a_printer_lost_in_its_print(rt: HostRuntime) {
    let shop = with_fails(&LONG_SECOND, &[60]);
    let records = [DONE, FAILED, DONE];
    assert_shop(&rt, rt.alloc(), &shop, Why::Over, (3, 2, 1, 0, 1), records);
}

// Two printers with PLA, and four copies of forty commands.
const TWO_ALIKE: Shop = Shop {
    materials: &["PLA", "PLA"],
    entries: &[("job-1", "b.gcode", 5, 4, "PLA")],
    ..LONG_SECOND
};

// Of two printers with the same material one is lost in its print: the other one prints all the rest.
#[test]
fn others_go_on(rt: HostRuntime) {
    let shop = with_fails(&TWO_ALIKE, &[60]);
    let records = [DONE, FAILED, DONE];
    assert_shop(&rt, rt.alloc(), &shop, Why::Over, (4, 3, 1, 0, 1), records);
}

// Three copies for the second printer whose file can't be printed, and then one whose file can.
fn with_files(files: &'static [(&'static str, &'static [u8])]) -> Shop {
    Shop {
        entries: &[
            ("job-1", "a.gcode", 5, 2, "PLA"),
            ("job-2", "b.gcode", 9, 3, "PETG"),
            ("job-3", "a.gcode", 1, 1, "PETG"),
        ],
        files,
        ..PLAIN
    }
}

fn assert_passed(rt: &impl Abort, alloc: Global, files: &'static [(&'static str, &'static [u8])]) {
    let records = [DONE, DONE, DONE];
    let shop = with_files(files);
    assert_shop(rt, alloc, &shop, Why::Over, (3, 3, 0, 3, 0), records);
}

const MISSING: &[(&str, &[u8])] = &[("a.gcode", PART)];

const REFUSED: &[(&str, &[u8])] = &[("a.gcode", PART), ("b.gcode", b"G28\nG1 X\x01\n")];

const HOT_TOOL: &[(&str, &[u8])] = &[("a.gcode", PART), ("b.gcode", b"G28\nM104 S251\n")];

const HOT_BED: &[(&str, &[u8])] = &[("a.gcode", PART), ("b.gcode", b"G28\nM190 S101\n")];

// A file that is missing, refused or too hot is passed over: its entry stays in the queue, and the next one for that printer is printed.
#[test]
fn passed_entries(rt: HostRuntime) {
    assert_passed(&rt, rt.alloc(), MISSING);
    assert_passed(&rt, rt.alloc(), REFUSED);
    assert_passed(&rt, rt.alloc(), HOT_TOOL);
    assert_passed(&rt, rt.alloc(), HOT_BED);
}
