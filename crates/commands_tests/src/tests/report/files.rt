//! Files and settings in memory, each with the report that reading it ends in.
use super::assert_report;
use octo_files::{Report, check_file, measure_file, read_job, read_settings_of, rest_of_file};
use octo_outside::{CallList, MemorySource, calls_of};
use octo_settings::Settings;
use std::alloc::Global;
use std::process::Abort;
use temp_rules::Limits;

// A short file with both extruder modes, a `G92` and a relative move.
const SHORT: &[u8] = b"G28\nM83\nG1 X10 Y5 E2.5\nG1 X20 E-1\nG92 E0\nG91\nG1 Z0.2 E1\n";

const LIMITS: Limits = Limits {
    tool: 300,
    bed: 120,
};

fn put(rt: &impl Abort, files: &mut MemorySource, name: &str, bytes: &[u8]) {
    assert!(rt; files.put(name, bytes).is_ok());
}

// A source that holds one file.
fn source(rt: &(impl Abort + Alloc<A = Global>), name: &str, bytes: &[u8]) -> MemorySource {
    let mut files = MemorySource::new(rt.alloc(), CallList::new(rt.alloc()));
    put(rt, &mut files, name, bytes);
    files
}

// Each command on files is called in one place, since its contract is long.
fn check(alloc: Global, files: &mut MemorySource, name: &str, limits: &Limits) -> Report {
    check_file(alloc, files, name, limits)
}

fn measure(alloc: Global, files: &mut MemorySource, name: &str) -> Report {
    measure_file(alloc, files, name)
}

fn rest(alloc: Global, files: &mut MemorySource, name: &str, from: usize) -> Report {
    rest_of_file(alloc, files, name, from)
}

fn settings_of(
    alloc: Global,
    files: &mut MemorySource,
    name: Option<&str>,
) -> Result<Settings, Report> {
    read_settings_of(alloc, files, name)
}

// The measure of the short file.
const MEASURED: &[u8] =
    b"commands 7\nmoves 3\nfed 3.500000\ndrawn 1.000000\nX 10.000000 20.000000\nY 5.000000 5.000000\nZ 0.000000 0.200000\n";

// The rest of it from its fifth command.
const REST: &[u8] =
    b"G90\nM83\nG92 X20.000000 Y5.000000 Z0.000000 E1.500000\nG92 E0\nG91\nG1 Z0.2 E1\n";

// Settings that name all that is required, and a limit.
const SETTINGS: &[u8] =
    b"printer.ports = [\"p\"]\nlimits.tool = 250\nadmin.name = \"a\"\nadmin.key_sha256 = \"0123456789abcdef0123456789abcdef0123456789abcdef0123456789abcdef\"\n";

// How many commands a file has.
fn count_in(rt: &(impl Abort + Alloc<A = Global>), files: &mut MemorySource, name: &str) -> usize {
    match read_job(rt.alloc(), files, name, &LIMITS) {
        Ok(job) => {
            let count = job.count();
            drop(job);
            count
        }
        Err(_) => panic!(rt; "refused"),
    }
}

#[test]
fn ample(rt: HostRuntime) {
    let mut files = source(&rt, "a.gcode", SHORT);
    let count = count_in(&rt, &mut files, "a.gcode");
    drop(files);
    assert_eq!(rt; count, 7);
}

// Checks a file; compares the exit status and the text.
fn assert_check(
    rt: &(impl Abort + Alloc<A = Global>),
    file: &[u8],
    limits: &Limits,
    code: u8,
    text: &[u8],
) {
    let mut files = source(rt, "f", file);
    let report = check(rt.alloc(), &mut files, "f", limits);
    drop(files);
    assert_report(rt, report, code, text);
}

#[test]
fn checks(rt: HostRuntime) {
    let text = b"commands 7\nskipped 0\nhottest tool 0\nhottest bed 0\n";
    assert_check(&rt, SHORT, &LIMITS, 0, text);
}

// Measures a file; compares the exit status and the text.
fn assert_measure(rt: &(impl Abort + Alloc<A = Global>), file: &[u8], code: u8, text: &[u8]) {
    let mut files = source(rt, "f", file);
    let report = measure(rt.alloc(), &mut files, "f");
    drop(files);
    assert_report(rt, report, code, text);
}

#[test]
fn measures(rt: HostRuntime) {
    assert_measure(&rt, SHORT, 0, MEASURED);
}

// A rest from a command, with the exit status and the text.
type Rest = (usize, u8, &'static [u8]);

// Compares the rests of a file, each from a command.
fn assert_rests(rt: &(impl Abort + Alloc<A = Global>), file: &[u8], rows: &[Rest]) {
    let mut files = source(rt, "a.gcode", file);
    for (from, code, text) in rows {
        let report = rest(rt.alloc(), &mut files, "a.gcode", *from);
        assert_report(rt, report, *code, text);
    }
    drop(files);
}

const SHORT_RESTS: [Rest; 3] = [
    (4, 0, REST),
    (
        7,
        0,
        b"G91\nM83\nG92 X20.000000 Y5.000000 Z0.200000 E1.000000\n",
    ),
    (8, 3, b"file: 7 commands\n"),
];

#[test]
fn goes_on_at_a_command(rt: HostRuntime) {
    assert_rests(&rt, SHORT, &SHORT_RESTS);
}

// A hot command, and then inches.
const HOT: &[u8] = b"M104 S999\nG20\n";

// A measure doesn't mind how hot a command is; it refuses inches.
#[test]
fn measures_hot_commands(rt: HostRuntime) {
    assert_measure(&rt, HOT, 3, b"file: line 2: inches\n");
}

// Nor does a rest mind it; it refuses inches only before its command.
const HOT_RESTS: [Rest; 2] = [
    (2, 3, b"file: line 2: inches\n"),
    (
        1,
        0,
        b"G90\nM82\nG92 X0.000000 Y0.000000 Z0.000000 E0.000000\nG20\n",
    ),
];

#[test]
fn goes_on_after_hot_commands(rt: HostRuntime) {
    assert_rests(&rt, HOT, &HOT_RESTS);
}

// A file, and the exit status and the text of its check.
type Check = (&'static [u8], u8, &'static [u8]);

fn assert_checks(rt: &(impl Abort + Alloc<A = Global>), rows: &[Check]) {
    for (file, code, text) in rows {
        assert_check(rt, file, &LIMITS, *code, text);
    }
}

const LINES: [Check; 6] = [
    (
        b"",
        0,
        b"commands 0\nskipped 0\nhottest tool 0\nhottest bed 0\n",
    ),
    (
        b"\n",
        0,
        b"commands 0\nskipped 1\nhottest tool 0\nhottest bed 0\n",
    ),
    (
        b"G28\r\nG1 X10\r\n",
        0,
        b"commands 2\nskipped 0\nhottest tool 0\nhottest bed 0\n",
    ),
    (
        b"M110 N4\nG28\n",
        0,
        b"commands 1\nskipped 1\nhottest tool 0\nhottest bed 0\n",
    ),
    (
        b"  \t G1 X1 \t ; x\n\n",
        0,
        b"commands 1\nskipped 1\nhottest tool 0\nhottest bed 0\n",
    ),
    (
        b"N12\tG1\nN G1\nNaN\n",
        0,
        b"commands 3\nskipped 0\nhottest tool 0\nhottest bed 0\n",
    ),
];

#[test]
fn checks_lines(rt: HostRuntime) {
    assert_checks(&rt, &LINES);
}

const REFUSED: [Check; 6] = [
    (b"G1\x07\n", 3, b"file: line 1: control byte\n"),
    (b"G1 X1\rG1 X2\n", 3, b"file: line 1: control byte\n"),
    (b"\x7f\n", 3, b"file: line 1: control byte\n"),
    (
        b"G28\n\nG1 X99999999999999999999999999999999999999999999999999999999999999999999999999\n",
        0,
        b"commands 2\nskipped 1\nhottest tool 0\nhottest bed 0\n",
    ),
    (
        b"G28\n\nG1 X9999999999999999999999999999999999999999999999999999999999999999999999999999\n",
        3,
        b"file: line 3: too long\n",
    ),
    (
        b"G28\nM104 S200\nM109 R300.5\n",
        3,
        b"file: line 3: too hot: 301 over 300\n",
    ),
];

#[test]
fn checks_refused_files(rt: HostRuntime) {
    assert_checks(&rt, &REFUSED);
}

#[test]
fn checks_by_other_limits(rt: HostRuntime) {
    let file = b"G28\nM104 S200\nM109 R260\n";
    let limits = Limits {
        tool: 250,
        bed: 120,
    };
    assert_check(
        &rt,
        file,
        &limits,
        3,
        b"file: line 3: too hot: 260 over 250\n",
    );
}

// A source with the short file, whose second call fails.
fn failing_source(rt: &(impl Abort + Alloc<A = Global>)) -> MemorySource {
    let fails = calls_of(rt.alloc(), &[2]).expect(rt, "no memory");
    let mut files = MemorySource::new(rt.alloc(), fails);
    put(rt, &mut files, "a.gcode", SHORT);
    files
}

#[test]
fn failing_sources(rt: HostRuntime) {
    let mut files = failing_source(&rt);
    let report = check(rt.alloc(), &mut files, "a.gcode", &LIMITS);
    drop(files);
    assert_report(&rt, report, 4, b"source failed\n");
}

#[test]
fn absent_files(rt: HostRuntime) {
    let mut files = source(&rt, "a.gcode", SHORT);
    let measured = measure(rt.alloc(), &mut files, "b.gcode");
    assert_report(&rt, measured, 4, b"source failed\n");
    let rest = rest(rt.alloc(), &mut files, "b.gcode", 0);
    assert_report(&rt, rest, 4, b"source failed\n");
    drop(files);
}

// The settings of this name, or the defaults.
fn good_settings(
    rt: &(impl Abort + Alloc<A = Global>),
    files: &mut MemorySource,
    name: Option<&str>,
) -> Settings {
    match settings_of(rt.alloc(), files, name) {
        Ok(settings) => settings,
        Err(_) => panic!(rt; "refused"),
    }
}

#[test]
fn defaults(rt: HostRuntime) {
    let mut files = source(&rt, "a.gcode", SHORT);
    let settings = good_settings(&rt, &mut files, None);
    drop(files);
    assert_eq!(rt; settings.limits, LIMITS);
    assert_eq!(rt; settings.window, 4);
    drop(settings);
}

#[test]
fn named_settings(rt: HostRuntime) {
    let mut files = source(&rt, "octo.toml", SETTINGS);
    let settings = good_settings(&rt, &mut files, Some("octo.toml"));
    drop(files);
    assert_eq!(rt; settings.limits.tool, 250);
    drop(settings);
}

fn refusal(rt: &impl Abort, read: Result<Settings, Report>) -> Report {
    match read {
        Ok(_) => panic!(rt; "read"),
        Err(report) => report,
    }
}

// A file octo.toml with these bytes: the settings of this name are refused.
fn assert_refused(
    rt: &(impl Abort + Alloc<A = Global>),
    bytes: &[u8],
    name: &str,
    code: u8,
    text: &[u8],
) {
    let mut files = source(rt, "octo.toml", bytes);
    let read = settings_of(rt.alloc(), &mut files, Some(name));
    drop(files);
    assert_report(rt, refusal(rt, read), code, text);
}

const REFUSED_SETTINGS: [(&[u8], &[u8]); 3] = [
    (b"printer = 3\n", b"settings: printer: wrong kind\n"),
    (b"= 3\n", b"settings: not toml\n"),
    (b"", b"settings: printer.ports: missing\n"),
];

#[test]
fn refused_settings(rt: HostRuntime) {
    for (settings, text) in &REFUSED_SETTINGS {
        assert_refused(&rt, settings, "octo.toml", 7, text);
    }
}

#[test]
fn absent_settings(rt: HostRuntime) {
    assert_refused(&rt, b"", "other.toml", 4, b"source failed\n");
}
