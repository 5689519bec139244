//! Whole floors: what they print, and how they end.
use super::bench::{Bench, PART, SETTINGS, WORDS, run};
use super::objects::Fault;
use print_queue::Outcome;
use printer_link::MemoryLink;
use printer_model::ExecutedLine;
use std::process::Abort;

// How many of these lines begin a part.
fn parts(lines: &[ExecutedLine]) -> usize {
    let mut parts: usize = 0;
    for line in lines {
        if line.text.as_slice() == b"G28".as_slice() {
            parts = parts.saturating_add(1);
        }
    }
    parts
}

// A printer executed this number of parts, each of four lines.
fn assert_parts(rt: &impl Abort, link: &MemoryLink, wanted: usize) {
    let lines = link.executed(1).expect(rt, "no memory");
    assert_eq!(rt; parts(lines.as_slice()), wanted);
    assert_eq!(rt; lines.as_slice().len(), wanted.saturating_mul(4));
    drop(lines);
}

fn assert_outcome(rt: &impl Abort, bench: &Bench, place: usize, wanted: Option<Outcome>) {
    assert_eq!(rt; bench.outcome(place), wanted);
}

// All three prints are done: the first printer made both copies of job-1, the second that of job-2, and no other link was used.
fn assert_all_done(rt: &impl Abort, bench: &Bench) {
    bench.assert_ended(rt, 0, true, "floor: 3 prints, 3 done, 0 failed, 0 left\n");
    assert_outcome(rt, bench, 0, Some(Outcome::Done));
    assert_outcome(rt, bench, 1, Some(Outcome::Done));
    assert_outcome(rt, bench, 2, Some(Outcome::Done));
    assert_outcome(rt, bench, 3, None);
    assert_parts(rt, &bench.links.a, 2);
    assert_parts(rt, &bench.links.b, 1);
    assert_eq!(rt; bench.links.c.sends(), 0);
}

#[test]
fn each_material_on_its_printer(rt: HostRuntime) {
    let bench = run(&rt, rt.alloc(), WORDS, SETTINGS, PART, Fault::Nothing);
    assert_all_done(&rt, &bench);
    bench.end();
}

// The same over printers whose `ok`s have numbers.
const NUMBERED: &str =
    "[printer]\nports = [\"p\"]\nnumbered_oks = true\n[admin]\nname = \"root\"\nkey_sha256 = \"470dc872b1b47dac8456c9f0800583d1176d1a2f194b626000379d1d7d7fc920\"\n[floor]\nports = [\"p\", \"q\"]\nmaterials = [\"PLA\", \"PETG\"]\n";

#[test]
fn numbered_oks(rt: HostRuntime) {
    let bench = run(&rt, rt.alloc(), WORDS, NUMBERED, PART, Fault::Nothing);
    assert_all_done(&rt, &bench);
    bench.end();
}

// The second printer is lost before it is ready, and its entry stays.
#[test]
fn lost_printer(rt: HostRuntime) {
    let bench = run(&rt, rt.alloc(), WORDS, SETTINGS, PART, Fault::Link(4));
    bench.assert_ended(&rt, 13, true, "floor: 2 prints, 2 done, 0 failed, 1 left\n");
    bench.end();
}

// The second printer's port isn't listed.
const UNLISTED: &str =
    "[printer]\nports = [\"p\"]\n[admin]\nname = \"root\"\nkey_sha256 = \"470dc872b1b47dac8456c9f0800583d1176d1a2f194b626000379d1d7d7fc920\"\n[floor]\nports = [\"p\", \"r\"]\nmaterials = [\"PLA\", \"PETG\"]\n";

#[test]
fn unlisted_port(rt: HostRuntime) {
    let bench = run(&rt, rt.alloc(), WORDS, UNLISTED, PART, Fault::Nothing);
    bench.assert_ended(&rt, 13, true, "floor: 2 prints, 2 done, 0 failed, 1 left\n");
    bench.end();
}

const TWO_ROUNDS: &[&str] = &["floor", "f", "d", "--settings", "s", "--turns", "2"];

// A printer is dialled in the first round, gets the hello in the second, and is ready in the third, in which it hears the hello's `ok`.
#[test]
fn turns_used_before_a_start(rt: HostRuntime) {
    let bench = run(&rt, rt.alloc(), TWO_ROUNDS, SETTINGS, PART, Fault::Nothing);
    bench.assert_ended(
        &rt,
        10,
        true,
        "floor: 0 prints, 0 done, 0 failed, 3 left\nturns used: 2\n",
    );
    bench.end();
}

const THREE_ROUNDS: &[&str] = &["floor", "f", "d", "--settings", "s", "--turns", "3"];

#[test]
fn turns_used_in_prints(rt: HostRuntime) {
    let bench = run(
        &rt,
        rt.alloc(),
        THREE_ROUNDS,
        SETTINGS,
        PART,
        Fault::Nothing,
    );
    bench.assert_ended(
        &rt,
        10,
        true,
        "floor: 2 prints, 0 done, 0 failed, 1 left\nturns used: 3\n",
    );
    bench.end();
}

// Files that are too hot are passed over, and their entries stay.
#[test]
fn files_that_are_too_hot(rt: HostRuntime) {
    let bench = run(
        &rt,
        rt.alloc(),
        WORDS,
        SETTINGS,
        "M104 S400\n",
        Fault::Nothing,
    );
    bench.assert_ended(&rt, 0, true, "floor: 0 prints, 0 done, 0 failed, 3 left\n");
    bench.end();
}
