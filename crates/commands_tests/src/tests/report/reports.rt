//! Reports, each with its text.
use super::assert_report;
use byte_text::{Name, bounded_text};
use gcode_lines::FileFault;
use gcode_measure::{Extent, Measure, MeasureFault};
use job_desk::Point;
use octo_files::Report;
use octo_outside::Blob;
use octo_settings::SettingsFault;
use send_window::SessionEnd;
use std::alloc::Global;
use std::process::Abort;
use temp_rules::HotLine;

#[test]
fn prints(rt: HostRuntime) {
    let printed = Report::Printed {
        commands: 0,
        skipped: 0,
    };
    assert_report(&rt, printed, 0, b"done: 0 commands, 0 skipped\n");
}

#[test]
fn checks(rt: HostRuntime) {
    let checked = Report::Checked {
        commands: 3,
        skipped: 5,
        tool: 215,
        bed: 60,
    };
    let text = b"commands 3\nskipped 5\nhottest tool 215\nhottest bed 60\n";
    assert_report(&rt, checked, 0, text);
}

#[test]
fn measures(rt: HostRuntime) {
    let measure = Measure {
        commands: 7,
        moves: 3,
        fed: 3_500_000,
        drawn: 1_000_000,
        x: Some(Extent {
            low: 10_000_000,
            high: 20_000_000,
        }),
        y: Some(Extent {
            low: 5_000_000,
            high: 5_000_000,
        }),
        z: Some(Extent {
            low: -1,
            high: 200_000,
        }),
    };
    let text =
        b"commands 7\nmoves 3\nfed 3.500000\ndrawn 1.000000\nX 10.000000 20.000000\nY 5.000000 5.000000\nZ -0.000001 0.200000\n";
    assert_report(&rt, Report::Measured(measure), 0, text);
}

#[test]
fn demos(rt: HostRuntime) {
    let text = b"demo seed 1 commands 3\nexecuted 3\nsent 8\nfaults 2\nstatus 6\n";
    let demo = Report::Demo {
        text: bounded_text(text),
        status: 6,
    };
    assert_report(&rt, demo, 6, text);
}

#[test]
fn rests(rt: HostRuntime) {
    let text = b"G90\nM82\nG92 X0.000000 Y0.000000 Z0.000000 E0.000000\n";
    let rest = Blob::from_slice(rt.alloc(), text).expect(&rt, "no memory");
    assert_report(&rt, Report::Rest(rest), 0, text);
}

#[test]
fn files(rt: HostRuntime) {
    let long = Report::BadFile(FileFault::TooLong { line: 4 });
    assert_report(&rt, long, 3, b"file: line 4: too long\n");
    let control = Report::BadFile(FileFault::ControlByte { line: 1 });
    assert_report(&rt, control, 3, b"file: line 1: control byte\n");
    let large = Report::BadFile(FileFault::TooLarge { bytes: 67_108_865 });
    assert_report(&rt, large, 3, b"file: 67108865 bytes: too large\n");
    let memory = Report::BadFile(FileFault::NoMemory);
    assert_report(&rt, memory, 11, b"no memory\n");
}

#[test]
fn hot_commands(rt: HostRuntime) {
    let hot = Report::TooHot(HotLine {
        line: 3,
        asked: 301,
        limit: 300,
    });
    assert_report(&rt, hot, 3, b"file: line 3: too hot: 301 over 300\n");
}

#[test]
fn refused_commands(rt: HostRuntime) {
    let inches = Report::BadMeasure(MeasureFault::Inches { line: 2 });
    assert_report(&rt, inches, 3, b"file: line 2: inches\n");
    let far = Report::BadMeasure(MeasureFault::TooFar { line: 5 });
    assert_report(&rt, far, 3, b"file: line 5: too far\n");
    assert_report(&rt, Report::Past { count: 7 }, 3, b"file: 7 commands\n");
}

fn name(text: &str) -> Name {
    Name::from_text(text).unwrap_or_default()
}

fn assert_refused(
    rt: &(impl Abort + Alloc<A = Global>),
    fault: SettingsFault,
    code: u8,
    text: &[u8],
) {
    assert_report(rt, Report::BadSettings(fault), code, text);
}

#[test]
fn keys(rt: HostRuntime) {
    let key = name("printer.ports");
    let missing = SettingsFault::Missing { key };
    assert_refused(&rt, missing, 7, b"settings: printer.ports: missing\n");
    let key = name("groups");
    let kind = SettingsFault::WrongKind { key };
    assert_refused(&rt, kind, 7, b"settings: groups: wrong kind\n");
    let key = name("limits.tool");
    let range = SettingsFault::OutOfRange { key };
    assert_refused(&rt, range, 7, b"settings: limits.tool: out of range\n");
}

#[test]
fn scripts(rt: HostRuntime) {
    let script = Point::Done;
    let template = SettingsFault::Template { script };
    let text = b"settings: scripts.afterPrintDone: template\n";
    assert_refused(&rt, template, 7, text);
    let hot = SettingsFault::TooHot {
        script: Point::Started,
        line: 2,
    };
    let text = b"settings: scripts.beforePrintStarted: line 2: too hot\n";
    assert_refused(&rt, hot, 7, text);
}

#[test]
fn settings(rt: HostRuntime) {
    assert_refused(&rt, SettingsFault::NotToml, 7, b"settings: not toml\n");
    assert_refused(&rt, SettingsFault::NoMemory, 11, b"no memory\n");
}

// The ends of a session by its own rules, each with its text.
const ENDS: [(SessionEnd, &[u8]); 7] = [
    (
        SessionEnd::NoAnswer { silent: 5 },
        b"session ended: no answer, 5 limits\n",
    ),
    (
        SessionEnd::AskedBack { asked: 6, acked: 6 },
        b"session ended: line 6 asked, 6 acknowledged\n",
    ),
    (
        SessionEnd::AskedAhead {
            asked: 11,
            issued: 9,
        },
        b"session ended: line 11 asked, 9 issued\n",
    ),
    (
        SessionEnd::Counts {
            number: 8,
            expected: 7,
        },
        b"session ended: ok for 8, 7 expected\n",
    ),
    (SessionEnd::Restarted, b"session ended: printer restarted\n"),
    (
        SessionEnd::LostOk { limits: 20 },
        b"session ended: an ok is missing, 20 limits\n",
    ),
    (
        SessionEnd::NumbersUsed {
            issued: 1_999_999_999,
        },
        b"session ended: 1999999999 lines\n",
    ),
];

#[test]
fn session_ends(rt: HostRuntime) {
    for (end, text) in &ENDS {
        assert_report(&rt, Report::Ended(*end), 6, text);
    }
}

#[test]
fn others(rt: HostRuntime) {
    assert_report(&rt, Report::BadWords, 2, b"octo: bad words\n");
    assert_report(&rt, Report::SourceFailed, 4, b"source failed\n");
    assert_report(&rt, Report::LinkFailed, 5, b"link failed\n");
    let turns = Report::TurnsUsed { turns: 2 };
    assert_report(&rt, turns, 10, b"turns used: 2\n");
    assert_report(&rt, Report::NoMemory, 11, b"no memory\n");
}

#[test]
fn unknown_port(rt: HostRuntime) {
    let unknown = Report::NoPort { port: name("q") };
    assert_report(&rt, unknown, 5, b"port q is not listed\n");
}

// The longest text but a file fits: each number of a measure has as many digits as its type allows.
#[test]
fn longest(rt: HostRuntime) {
    let extent = Some(Extent {
        low: i128::MIN,
        high: i128::MIN,
    });
    let measure = Measure {
        commands: 4_294_967_295,
        moves: 4_294_967_295,
        fed: i128::MIN,
        drawn: i128::MIN,
        x: extent,
        y: extent,
        z: extent,
    };
    let text =
        b"commands 4294967295\nmoves 4294967295\nfed -170141183460469231731687303715884.105728\ndrawn -170141183460469231731687303715884.105728\nX -170141183460469231731687303715884.105728 -170141183460469231731687303715884.105728\nY -170141183460469231731687303715884.105728 -170141183460469231731687303715884.105728\nZ -170141183460469231731687303715884.105728 -170141183460469231731687303715884.105728\n";
    assert_report(&rt, Report::Measured(measure), 0, text);
}
