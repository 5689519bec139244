//! Reply lines of a Marlin printer, each with what it says.
use marlin_reply::{Heat, Reply, Temps, read_reply};
use std::process::Abort;

// A line and its reply.
type Row = (&'static str, Reply);

// An `ok` and its numbers: the line's, and the free buffer slots of planner and queue.
type OkRow = (&'static str, [Option<u32>; 3]);

// A report and its temperatures.
type HeatRow = (&'static str, Temps);

const ROOM_TEMPS: Temps = Temps {
    tool: Some(Heat {
        actual: 21_300_000,
        target: 0,
    }),
    bed: Some(Heat {
        actual: 21_220_000,
        target: 0,
    }),
};

const TOOL_TEMPS: Temps = Temps {
    tool: Some(Heat {
        actual: 1_000_000,
        target: 2_000_000,
    }),
    bed: None,
};

fn expect(rt: &impl Abort, line: &str, reply: Reply) {
    assert_eq!(rt; read_reply(line.as_bytes()), reply, "{line}");
}

fn expect_ok(rt: &impl Abort, line: &str, numbers: [Option<u32>; 3], temps: Option<Temps>) {
    let [number, planner, block] = numbers;
    let reply = Reply::Ok {
        number,
        planner,
        block,
        temps,
    };
    expect(rt, line, reply);
}

const ACKNOWLEDGEMENTS: [OkRow; 9] = [
    ("ok", [None, None, None]),
    ("ok N4 P15 B3", [Some(4), Some(15), Some(3)]),
    ("ok P15 B3", [None, Some(15), Some(3)]),
    ("ok N P2", [None, Some(2), None]),
    ("ok N4294967296", [None, None, None]),
    ("ok N5 N6", [Some(5), None, None]),
    ("ok\r", [None, None, None]),
    ("ok  B7", [None, None, Some(7)]),
    ("ok T:21", [None, None, None]),
];

#[test]
fn acknowledgements(rt: HostRuntime) {
    for (line, numbers) in ACKNOWLEDGEMENTS {
        expect_ok(&rt, line, numbers, None);
    }
}

const WITH_TEMPS: [HeatRow; 2] = [
    ("ok T:21.30 /0.00 B:21.22 /0.00 @:0 B@:0", ROOM_TEMPS),
    ("ok T:1 /2 T:3 /4", TOOL_TEMPS),
];

#[test]
fn acknowledgements_with_temperatures(rt: HostRuntime) {
    for (line, temps) in WITH_TEMPS {
        expect_ok(&rt, line, [None; 3], Some(temps));
    }
}

const REPORTS: [HeatRow; 5] = [
    (" T:21.30 /0.00 B:21.22 /0.00 @:0 B@:0", ROOM_TEMPS),
    (
        "T:200.1/210",
        Temps {
            tool: Some(Heat {
                actual: 200_100_000,
                target: 210_000_000,
            }),
            bed: None,
        },
    ),
    (
        "T:-3.5 / 0 B:60 /60",
        Temps {
            tool: None,
            bed: Some(Heat {
                actual: 60_000_000,
                target: 60_000_000,
            }),
        },
    ),
    (
        "T:+1.5 /0 B:2. /.5",
        Temps {
            tool: Some(Heat {
                actual: 1_500_000,
                target: 0,
            }),
            bed: Some(Heat {
                actual: 2_000_000,
                target: 500_000,
            }),
        },
    ),
    (
        "T:1/2 B:3   /4.0000009",
        Temps {
            tool: Some(Heat {
                actual: 1_000_000,
                target: 2_000_000,
            }),
            bed: Some(Heat {
                actual: 3_000_000,
                target: 4_000_000,
            }),
        },
    ),
];

#[test]
fn reports_of_temperatures(rt: HostRuntime) {
    for (line, temps) in REPORTS {
        expect(&rt, line, Reply::Temps(temps));
    }
}

const RESENDS: [Row; 12] = [
    ("Resend:12", Reply::Resend { number: 12 }),
    ("Resend: 12", Reply::Resend { number: 12 }),
    ("Resend:  7 ", Reply::Resend { number: 7 }),
    ("Resend: 12x", Reply::Resend { number: 12 }),
    (
        "Resend: 4294967295",
        Reply::Resend {
            number: 4_294_967_295,
        },
    ),
    ("Resend: 4294967296", Reply::Other),
    ("Resend: 99999999999", Reply::Other),
    ("Resend:99999999999", Reply::Other),
    ("Resend: 00000000012", Reply::Other),
    ("Resend:\t12", Reply::Other),
    ("Resend: -1", Reply::Other),
    ("Resend:", Reply::Other),
];

#[test]
fn resends(rt: HostRuntime) {
    for (line, reply) in RESENDS {
        expect(&rt, line, reply);
    }
}

const OTHER_LINES: [Row; 18] = [
    ("okay", Reply::Other),
    ("B:60", Reply::Other),
    ("T:", Reply::Other),
    ("start", Reply::Start),
    (" start ", Reply::Start),
    ("started", Reply::Other),
    ("echo:busy: processing", Reply::Busy),
    ("busy: paused", Reply::Busy),
    ("Error:checksum mismatch, Last Line: 4", Reply::Error),
    ("error:no", Reply::Other),
    ("echo:Unknown command", Reply::Other),
    ("OK", Reply::Other),
    ("", Reply::Other),
    ("wait", Reply::Other),
    ("okT:1 /2", Reply::Other),
    ("ok\tN4", Reply::Other),
    ("\rok", Reply::Other),
    ("T:x T:1 /2", Reply::Other),
];

#[test]
fn other_lines(rt: HostRuntime) {
    for (line, reply) in OTHER_LINES {
        expect(&rt, line, reply);
    }
}

const EDGES: [OkRow; 4] = [
    ("ok N4294967296 N7 N8", [Some(7), None, None]),
    ("ok N00000000012", [Some(12), None, None]),
    ("ok P15x B3", [None, None, Some(3)]),
    ("\t ok \r \t\r", [None, None, None]),
];

#[test]
fn edges(rt: HostRuntime) {
    for (line, numbers) in EDGES {
        expect_ok(&rt, line, numbers, None);
    }
}
