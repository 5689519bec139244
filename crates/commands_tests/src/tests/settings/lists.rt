//! Settings that are refused for a group or a script.
use super::*;
use job_desk::Point;
use std::alloc::Global;
use std::process::Abort;

// Groups: their names, and then what each has, by byte order of their names.
const GROUPS: [(&str, Why, &str); 10] = [
    ("users = []", Why::Range, "groups"),
    ("admins = []", Why::Range, "groups"),
    ("readonly = []", Why::Range, "groups"),
    ("guests = []", Why::Range, "groups"),
    ("'a b' = []", Why::Range, "groups"),
    ("'' = []", Why::Range, "groups"),
    ("makers = 'PRINT'", Why::Kind, "groups.makers"),
    ("makers = ['PRINT', 1]", Why::Kind, "groups.makers"),
    ("makers = ['PRINT', 'print']", Why::Range, "groups.makers"),
    ("b = 1\nB = []\na = ['BAKE']", Why::Range, "groups.a"),
];

// Sixteen groups.
const MANY: &str = "a = []\nb = []\nc = []\nd = []\ne = []\nf = []\ng = []\nh = []\n\
i = []\nj = []\nk = []\nl = []\nm = []\nn = []\no = []\np = []";

// One more. Their number is tested before their names.
const ONE_MORE: &str = "A = ['BAKE']";

// A printer; lines that follow are groups.
const IN_GROUPS: &str = "[printer]\nports = ['p']\n[groups]";

#[test]
fn groups(rt: HostRuntime) {
    faults(&rt, IN_GROUPS, ADMIN, &GROUPS);
}

#[test]
fn many_groups(rt: HostRuntime) {
    let head = format!(in rt.alloc(); "{IN_GROUPS}\n{MANY}").expect(&rt, "no memory");
    assert!(&rt; is_read(&rt, head.as_str(), "", ADMIN));
    assert_fault(&rt, head.as_str(), ADMIN, ONE_MORE, Why::Range, "groups");
    drop(head);
}

// A group's key, of its first 93 bytes.
const NINETY_THREE: &str =
    "groups.0123456789012345678901234567890123456789012345678901234567890123456789\
01234567890123456789012";

// The key of a group has at most the first 93 bytes of its name.
#[test]
fn long_group(rt: HostRuntime) {
    let text = format!(in rt.alloc(); "{HUNDRED} = 1").expect(&rt, "no memory");
    assert_fault(
        &rt,
        IN_GROUPS,
        ADMIN,
        text.as_str(),
        Why::Kind,
        NINETY_THREE,
    );
    drop(text);
}

// Scripts that aren't lists of commands.
const SCRIPTS: [(&str, Why, &str); 8] = [
    (
        "afterPrintDone = 'M84'",
        Why::Kind,
        "scripts.afterPrintDone",
    ),
    (
        "afterPrintDone = ['{{x}}', 1]",
        Why::Kind,
        "scripts.afterPrintDone",
    ),
    (
        "afterPrintDone = ['M84', '']",
        Why::Range,
        "scripts.afterPrintDone",
    ),
    (
        "afterPrintDone = [\"M84\\nM85\"]",
        Why::Range,
        "scripts.afterPrintDone",
    ),
    (
        "afterPrintDone = ['M110 N5']",
        Why::Range,
        "scripts.afterPrintDone",
    ),
    (
        "afterPrinterConnected = [1]",
        Why::Kind,
        "scripts.afterPrinterConnected",
    ),
    (
        "afterPrintPaused = [1]",
        Why::Kind,
        "scripts.afterPrintPaused",
    ),
    // Scripts are tested in the order in which they can run.
    (
        "afterPrintDone = 1\nbeforePrinterDisconnected = ['; none']",
        Why::Range,
        "scripts.beforePrinterDisconnected",
    ),
];

// A printer; lines that follow are scripts.
const IN_SCRIPTS: &str = "[printer]\nports = ['p']\n[scripts]";

#[test]
fn scripts(rt: HostRuntime) {
    faults(&rt, IN_SCRIPTS, ADMIN, &SCRIPTS);
}

// The point of a script that has a template.
fn template_of(rt: &(impl Abort + Alloc<A = Global>), scripts: &str) -> Option<Point> {
    let fault = read(rt, IN_SCRIPTS, scripts, ADMIN).err();
    let point = match &fault {
        Some(SettingsFault::Template { script }) => Some(*script),
        _ => None,
    };
    drop(fault);
    point
}

// A script of one line and that many more.
fn script(rt: &(impl Abort + Alloc<A = Global>), more: usize) -> String {
    let more = ", 'M84'".repeat(rt.alloc(), more).expect(rt, "no memory");
    let text = format!(in rt.alloc(); "afterPrintDone = ['{{%'{more}]").expect(rt, "no memory");
    drop(more);
    text
}

// A script has at most 64 lines. Their number is tested before them.
#[test]
fn most_lines(rt: HostRuntime) {
    let most = script(&rt, 63);
    assert_eq!(rt; template_of(&rt, most.as_str()), Some(Point::Done));
    drop(most);
}

#[test]
fn many_lines(rt: HostRuntime) {
    let many = script(&rt, 64);
    let key = "scripts.afterPrintDone";
    assert_fault(&rt, IN_SCRIPTS, ADMIN, many.as_str(), Why::Range, key);
    drop(many);
}

// Scripts of which a line has a template.
const TEMPLATES: [&str; 3] = [
    "beforePrintStarted = ['M104 S{{x}}']",
    "beforePrintStarted = ['G28', '{% if x %}']",
    "beforePrintStarted = ['G28', ' ; {{x}}', 'M104 S301']",
];

#[test]
fn templates(rt: HostRuntime) {
    for scripts in &TEMPLATES {
        assert_eq!(rt;
            template_of(&rt, scripts),
            Some(Point::Started),
            "{scripts}"
        );
    }
}

// The point and the line of a script that is too hot.
fn hot_line(
    rt: &(impl Abort + Alloc<A = Global>),
    head: &str,
    scripts: &str,
) -> Option<(Point, u32)> {
    let fault = read(rt, head, ADMIN, scripts).err();
    let place = match &fault {
        Some(SettingsFault::TooHot { script, line }) => Some((*script, *line)),
        _ => None,
    };
    drop(fault);
    place
}

// A printer with a limit.
const COOL: &str = "[printer]\nports = ['p']\n[limits]\ntool = 250";

// Two scripts, the second of which has a hotter command.
const HOT: &str = "[scripts]\nafterPrintPaused = ['M104 S200']\n\
afterPrintDone = ['G28', 'M104 S250', 'M109 R260']\n";

// The limits are those of the settings; lines are counted from 1.
#[test]
fn too_hot(rt: HostRuntime) {
    assert_eq!(rt; hot_line(&rt, COOL, HOT), Some((Point::Done, 3)));
    assert!(&rt; is_read(&rt, PRINTER, ADMIN, HOT));
}
