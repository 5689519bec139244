//! What files measure, modes of the axes, refused files, and files that go on at a command.
use gcode_lines::{Job, read_commands};
use gcode_measure::{Measure, MeasureFault, measure, measure_text, rest};
use octo_outside::Blob;
use std::alloc::{AllocError, Global};
use std::process::Abort;

fn job_of(rt: &(impl Abort + Alloc<A = Global>), file: &[u8]) -> Job {
    read_commands(rt.alloc(), file).expect(rt, "refused")
}

// What a file measures, or its fault.
fn measured(rt: &(impl Abort + Alloc<A = Global>), file: &[u8]) -> Result<Measure, MeasureFault> {
    let job = job_of(rt, file);
    let found = measure(&job);
    drop(job);
    found
}

// How much the commands feed, or the text of their fault.
fn feed_text(alloc: Global, found: Result<Measure, MeasureFault>) -> Result<String, AllocError> {
    match found {
        Ok(found) => {
            let fed = found.fed;
            format!(in alloc; "{fed}")
        }
        Err(fault) => format!(in alloc; "{fault}"),
    }
}

// The file feeds so much, or has that fault.
fn assert_feed(rt: &(impl Abort + Alloc<A = Global>), file: &str, want: &str) {
    let found = measured(rt, file.as_bytes());
    let fed = feed_text(rt.alloc(), found).expect(rt, "no memory");
    assert!(rt; fed.as_str() == want, "of {file}: {fed}");
    drop(fed);
}

// Each of the files feeds so much, or has that fault.
fn feeds(rt: &(impl Abort + Alloc<A = Global>), rows: &[(&str, &str)]) {
    for (file, want) in rows {
        assert_feed(rt, file, want);
    }
}

const MODES: [(&str, &str); 5] = [
    ("G1 E1\nG1 E3\n", "3000000"),
    ("G91\nG1 E1\nG1 E3\n", "4000000"),
    ("M83\nG1 E1\nG1 E3\n", "4000000"),
    ("M83\nG90\nG1 E1\nG1 E3\n", "3000000"),
    ("G91\nM82\nG1 E1\nG1 E3\n", "3000000"),
];

#[test]
fn modes(rt: HostRuntime) {
    feeds(&rt, &MODES);
}

const ANCHORS: [(&str, &str); 3] = [
    ("G92\nG1 E1\nG92 E\nG1 E2\n", "2000000"),
    ("G1 E2\nG92 E0\nG1 E2\n", "4000000"),
    ("G1 E2\nG28\nG1 E2\n", "2000000"),
];

#[test]
fn anchors(rt: HostRuntime) {
    feeds(&rt, &ANCHORS);
}

const WORDS: [(&str, &str); 2] = [
    ("g1e.5\nG01 E E1 E9\nG1.0 E1.5\n", "1500000"),
    ("T0 G1 E5\nM117 E5\nG4 E5\nG0.5 E5\n", "0"),
];

#[test]
fn words(rt: HostRuntime) {
    feeds(&rt, &WORDS);
}

const REFUSED: [(&str, &str); 4] = [
    ("G21\nG20\nG1 E2\n", "line 2: inches"),
    ("G1 X1000000\nG1 X-1000000 E1\n", "1000000"),
    (";\nG1 Z-1000000.000001\nG20\n", "line 2: too far"),
    ("G91\nG1 Y900000\nG1 Y200000\n", "line 3: too far"),
];

#[test]
fn refusals(rt: HostRuntime) {
    feeds(&rt, &REFUSED);
}

// The rest of a file from a command on.
fn rest_of(rt: &(impl Abort + Alloc<A = Global>), file: &[u8], from: usize) -> Blob {
    let job = job_of(rt, file);
    let text = rest(rt.alloc(), &job, from).expect(rt, "refused");
    drop(job);
    text
}

fn goes_on(rt: &(impl Abort + Alloc<A = Global>), file: &[u8], from: usize, want: &[u8]) {
    let text = rest_of(rt, file, from);
    assert_eq!(rt; text.as_slice(), want);
    drop(text);
}

// A file, the number of its commands that are done, and the rest.
const RESTS: [(&[u8], usize, &[u8]); 3] = [
    (
        b"G1 X5 Y-.5\nN1 N2 G1 X6\n",
        1,
        b"G90\nM82\nG92 X5.000000 Y-0.500000 Z0.000000 E0.000000\nN0 N2 G1 X6\n",
    ),
    (
        b"G91\nM82\nG1 Z.25\nG1 Z.25 E1\nG28 X\n",
        4,
        b"G91\nM82\nG92 X0.000000 Y0.000000 Z0.500000 E1.000000\nG28 X\n",
    ),
    (
        b"M104 S9 ; hot\nG20\n",
        1,
        b"G90\nM82\nG92 X0.000000 Y0.000000 Z0.000000 E0.000000\nG20\n",
    ),
];

#[test]
fn rests(rt: HostRuntime) {
    for (file, from, want) in &RESTS {
        goes_on(&rt, file, *from, want);
    }
}

// A short file with both extruder modes, a `G92` and a relative move.
const FILE: &[u8] = b"G28\nM83\nG1 X10 Y5 E2.5\nG1 X20 E-1\nG92 E0\nG91\nG1 Z0.2 E1\n";

const MEASURED: &[u8] =
    b"commands 7\nmoves 3\nfed 3.500000\ndrawn 1.000000\nX 10.000000 20.000000\nY 5.000000 5.000000\nZ 0.000000 0.200000\n";

#[test]
fn measure_as_printed(rt: HostRuntime) {
    let found = measured(&rt, FILE).expect(&rt, "refused");
    let shown = measure_text(&found);
    assert_eq!(rt; shown.as_slice(), MEASURED);
    drop(shown);
}

#[test]
fn ample(rt: HostRuntime) {
    let want = b"G90\nM83\nG92 X20.000000 Y5.000000 Z0.000000 E1.500000\nG92 E0\nG91\nG1 Z0.2 E1\n";
    goes_on(&rt, FILE, 4, want);
}
