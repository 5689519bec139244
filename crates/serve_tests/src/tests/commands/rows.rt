//! Commands, each with what it comes to.
use super::{DONE, HOME_AND_MOVE, Row, UNSENT, assert_row};
use printer_link::Fate;

// A line that is lost and one that is corrupted are sent again.
const CORRUPTED: Row = Row {
    fates: &[Fate::Whole, Fate::Garbled],
    sends: 5,
    ..DONE
};

const LOST: Row = Row {
    fates: &[Fate::Whole, Fate::Lost],
    sends: 5,
    ..DONE
};

#[test]
fn lossy_line(rt: HostRuntime) {
    assert_row(&rt, rt.alloc(), &CORRUPTED);
    assert_row(&rt, rt.alloc(), &LOST);
}

const FAILURES: [Row; 4] = [
    Row {
        source_fails: &[1],
        code: 4,
        text: b"source failed\n",
        ..UNSENT
    },
    Row {
        sink_fails: &[1],
        code: 8,
        text: b"",
        ..DONE
    },
    Row {
        words: &["print", "q", "a.gcode"],
        code: 5,
        text: b"port q is not listed\n",
        ..UNSENT
    },
    Row {
        link_fails: &[1],
        code: 5,
        text: b"link failed\n",
        ..UNSENT
    },
];

#[test]
fn failures(rt: HostRuntime) {
    for row in &FAILURES {
        assert_row(&rt, rt.alloc(), row);
    }
}

// The printer restarts while the first command is on its way, and while the second is.
const RESTARTED: Row = Row {
    code: 6,
    text: b"session ended: printer restarted\n",
    ..DONE
};

const AT_FIRST: Row = Row {
    restarts: &[4],
    executed: b"",
    ..RESTARTED
};

const AT_SECOND: Row = Row {
    restarts: &[5],
    executed: b"G28\n",
    ..RESTARTED
};

#[test]
fn restarts(rt: HostRuntime) {
    assert_row(&rt, rt.alloc(), &AT_FIRST);
    assert_row(&rt, rt.alloc(), &AT_SECOND);
}

const SIX_TURNS: Row = Row {
    words: &["print", "p", "a.gcode", "--turns", "6"],
    code: 10,
    text: b"turns used: 6\n",
    ..DONE
};

#[test]
fn allowed_turns(rt: HostRuntime) {
    assert_row(&rt, rt.alloc(), &SIX_TURNS);
}

// Settings with a script at the beginning and at the end of a print, and the limit 250 for the tool.
const BY_SETTINGS: Row = Row {
    words: &["print", "p", "a.gcode", "--settings", "s"],
    executed: b"M107\nG28\nG1 X10\nM84\n",
    sends: 5,
    ..DONE
};

const HOT: Row = Row {
    words: &["check", "a.gcode", "--settings", "s"],
    file: b"G28\nG1 X10\nM104 S260\n",
    code: 3,
    text: b"file: line 3: too hot: 260 over 250\n",
    ..UNSENT
};

const NO_SETTINGS: Row = Row {
    words: &["print", "p", "a.gcode", "--settings", "a.gcode"],
    code: 7,
    text: b"settings: not toml\n",
    ..UNSENT
};

#[test]
fn settings(rt: HostRuntime) {
    assert_row(&rt, rt.alloc(), &BY_SETTINGS);
    assert_row(&rt, rt.alloc(), &HOT);
    assert_row(&rt, rt.alloc(), &NO_SETTINGS);
}

// Settings with which no numbers of `ok`s may be read.
const NARROW: &[u8] =
    b"[printer]\nports = [\"p\"]\nwindow = 1\n\n[admin]\nname = \"root\"\nkey_sha256 = \"470dc872b1b47dac8456c9f0800583d1176d1a2f194b626000379d1d7d7fc920\"\n";

// A print by the numbers of `ok`s.
const SURE: Row = Row {
    words: &["sure", "p", "a.gcode"],
    ..DONE
};

const SURE_BY_SETTINGS: Row = Row {
    words: &["sure", "p", "a.gcode", "--settings", "s"],
    executed: b"M107\nG28\nG1 X10\nM84\n",
    sends: 5,
    ..DONE
};

const TOO_NARROW: Row = Row {
    words: &["sure", "p", "a.gcode", "--settings", "a.gcode"],
    file: NARROW,
    code: 7,
    text: b"settings: printer.numbered_oks: out of range\n",
    ..UNSENT
};

#[test]
fn sure(rt: HostRuntime) {
    assert_row(&rt, rt.alloc(), &SURE);
    assert_row(&rt, rt.alloc(), &SURE_BY_SETTINGS);
    assert_row(&rt, rt.alloc(), &TOO_NARROW);
}

const CHECK: Row = Row {
    words: &["check", "a.gcode"],
    file: b"M109 S215\nG1 X10.5 E0.02 ; line\r\n\r\n",
    code: 0,
    text: b"commands 2\nskipped 1\nhottest tool 215\nhottest bed 0\n",
    ..UNSENT
};

#[test]
fn checks(rt: HostRuntime) {
    assert_row(&rt, rt.alloc(), &CHECK);
}

const MEASURED: &[u8] = b"G28\nM83\nG1 X10 Y5 E2.5\nG1 X20 E-1\nG92 E0\nG91\nG1 Z0.2 E1\n";

const REST: Row = Row {
    words: &["rest", "a.gcode", "4"],
    file: MEASURED,
    code: 0,
    text: b"G90\nM83\nG92 X20.000000 Y5.000000 Z0.000000 E1.500000\nG92 E0\nG91\nG1 Z0.2 E1\n",
    ..UNSENT
};

const PAST: Row = Row {
    words: &["rest", "a.gcode", "8"],
    code: 3,
    text: b"file: 7 commands\n",
    ..REST
};

#[test]
fn measures(rt: HostRuntime) {
    assert_row(&rt, rt.alloc(), &REST);
    assert_row(&rt, rt.alloc(), &PAST);
}

// A host without a message, one that is shut down by its first, and one that the settings refuse.
const UNASKED: Row = Row {
    words: &["serve", "a", "f", "d", "--settings", "s"],
    code: 0,
    text: b"served 0 calls\n",
    ..UNSENT
};

const SHUT: Row = Row {
    inputs: &[
        b"POST /api/system/commands/core/shutdown HTTP/1.1\r\nX-Api-Key: rootxkeyx0000000\r\n\r\n",
    ],
    text: b"served 1 calls\n",
    ..UNASKED
};

const REFUSED: Row = Row {
    words: &["serve", "a", "f", "d", "--settings", "a.gcode"],
    code: 7,
    text: b"settings: not toml\n",
    ..UNSENT
};

#[test]
fn hosts(rt: HostRuntime) {
    assert_row(&rt, rt.alloc(), &UNASKED);
    assert_row(&rt, rt.alloc(), &SHUT);
    assert_row(&rt, rt.alloc(), &REFUSED);
}

const DEMO: Row = Row {
    words: &["demo", "1", "3"],
    code: 0,
    text: b"demo seed 1 commands 3\nexecuted 3\nsent 8\nfaults 2\nstatus 0\n",
    ..UNSENT
};

#[test]
fn demos(rt: HostRuntime) {
    assert_row(&rt, rt.alloc(), &DEMO);
}
