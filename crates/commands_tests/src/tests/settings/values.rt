//! Settings that are read: what each key says, its default, and the ends of its range.
use super::*;
use arrayvec::ArrayVec;
use byte_text::Name;
use job_desk::{Point, Scripts};
use octo_access::{Groups, Permission, Policy, UserRow, digest_of};
use std::alloc::Global;
use std::mem;
use std::process::Abort;

// Every key at its least.
const LEAST: &str = "[printer]\nports = ['p']\nwindow = 1\nlimit_ms = 1000\npoll_ms = 1000\n\
boot_ms = 0\nmaterial = 'A'\nconnect = false\nnumbered_oks = false\n[limits]\ntool = 0\nbed = 0\n[serve]\npatience = 1\n[groups]\n[scripts]\n";

// Every whole number at its greatest.
const GREATEST: &str = "[printer]\nports = ['a:1', 'unix:b']\nwindow = 16\nlimit_ms = 600000\n\
poll_ms = 600_000\nboot_ms = 60000\nmaterial = 'PLA-1.0_(x)+'\nconnect = true\nnumbered_oks = true\n[limits]\ntool = 500\nbed = 200\n\
[serve]\npatience = 4000000000\n";

// Whether the script's line at a place is this.
fn is_line(scripts: &Scripts, point: Point, place: usize, line: &str) -> bool {
    match scripts.get(point, place) {
        Some(text) => text.as_slice() == line.as_bytes(),
        None => false,
    }
}

fn has(rt: &impl Abort, scripts: &Scripts, point: Point, wanted: &[&str]) {
    assert_eq!(rt; scripts.count(point), wanted.len());
    for (i, line) in wanted.iter().enumerate() {
        assert!(rt; is_line(scripts, point, i, line));
    }
}

// Its whole numbers, in the order of their keys.
fn numbers(settings: &Settings) -> [u64; 6] {
    [
        settings.window as u64,
        settings.limit_ms,
        settings.poll_ms,
        settings.limits.tool as u64,
        settings.limits.bed as u64,
        settings.patience as u64,
    ]
}

// It has this number of ports, this material, and these whole numbers.
fn assert_values(
    rt: &impl Abort,
    settings: &Settings,
    ports: usize,
    material: &str,
    wanted: [u64; 6],
) {
    assert_eq!(rt; settings.ports.as_slice().len(), ports);
    assert_eq!(rt; settings.material.as_str(), material);
    assert_eq!(rt; numbers(settings), wanted);
}

#[test]
fn least(rt: HostRuntime) {
    let settings = settings_of(&rt, LEAST, ADMIN, "");
    assert_values(&rt, &settings, 1, "A", [1, 1_000, 1_000, 0, 0, 1]);
    assert!(rt; settings.boot_ms == Some(0) && !settings.connect && !settings.numbered_oks);
    drop(settings);
}

#[test]
fn greatest(rt: HostRuntime) {
    let settings = settings_of(&rt, GREATEST, ADMIN, "");
    let wanted = [16, 600_000, 600_000, 500, 200, 4_000_000_000];
    assert_values(&rt, &settings, 2, "PLA-1.0_(x)+", wanted);
    assert!(rt; settings.boot_ms == Some(60_000) && settings.connect && settings.numbered_oks);
    drop(settings);
}

// These are its origins, in their order.
fn has_origins(rt: &impl Abort, settings: &Settings, wanted: &[&str]) {
    assert_eq!(rt; settings.origins.as_slice().len(), wanted.len());
    for (origin, text) in settings.origins.as_slice().iter().zip(wanted) {
        assert!(rt; origin.as_str() == *text);
    }
}

// Settings with this section have these origins.
fn assert_origins(rt: &(impl Abort + Alloc<A = Global>), section: &str, wanted: &[&str]) {
    let settings = settings_of(rt, PRINTER, ADMIN, section);
    has_origins(rt, &settings, wanted);
    drop(settings);
}

#[test]
fn origins(rt: HostRuntime) {
    assert_origins(&rt, "[serve]\norigins = []", &[]);
    let two = "[serve]\norigins = ['http://a:8080', 'https://b']\n";
    assert_origins(&rt, two, &["http://a:8080", "https://b"]);
}

// The least window with numbers.
#[test]
fn numbered_oks(rt: HostRuntime) {
    let two = "[printer]\nports = ['p']\nwindow = 2\nnumbered_oks = true\n";
    let settings = settings_of(&rt, two, ADMIN, "");
    assert!(rt; settings.window == 2 && settings.numbered_oks);
    drop(settings);
}

fn are_defaults(rt: &impl Abort, settings: &Settings, ports: usize) {
    has_origins(rt, settings, &[]);
    let wanted = [4, 30_000, 5_000, 300, 120, 6_000];
    assert_values(rt, settings, ports, "any", wanted);
    assert!(rt; settings.boot_ms.is_none() && !settings.connect && !settings.numbered_oks);
    assert_eq!(rt; settings.scripts.count(Point::Started), 0);
}

#[test]
fn defaults(rt: HostRuntime) {
    let settings = settings_of(&rt, PRINTER, ADMIN, "");
    are_defaults(&rt, &settings, 1);
    drop(settings);
}

// Keys that aren't named, and scripts by other names, are passed over.
#[test]
fn other_keys(rt: HostRuntime) {
    let other = "colour = 'red'\n[scripts]\nbeforeToolChange = ['{{x}}']\n[slicer]\nlayers = 1\n";
    let settings = settings_of(&rt, PRINTER, ADMIN, other);
    are_defaults(&rt, &settings, 1);
    drop(settings);
}

#[test]
fn plain(rt: HostRuntime) {
    let settings = Settings::plain(rt.alloc());
    are_defaults(&rt, &settings, 0);
    assert!(&rt; settings.admin.is_none());
    drop(settings);
}

// Whether these settings' admin is root, with the digest of this key.
fn have_root(settings: &Settings, key: &[u8]) -> bool {
    match &settings.admin {
        Some(admin) => admin.name.as_str() == "root" && admin.digest == digest_of(key),
        None => false,
    }
}

// The same admin, in capitals.
const CAPITALS: &str = "[admin]\nname = 'root'\n\
key_sha256 = '3D6DC258F967781F8598C11AF4D699E0A7F3F5F52F6B1A0F0931150933A2D5AE'\n";

fn assert_root(rt: &(impl Abort + Alloc<A = Global>), admin: &str) {
    let settings = settings_of(rt, PRINTER, admin, "");
    assert!(rt; have_root(&settings, b"ana-key-0123456789"));
    drop(settings);
}

#[test]
fn admin(rt: HostRuntime) {
    assert_root(&rt, ADMIN);
    assert_root(&rt, CAPITALS);
}

// An active user of one group.
fn member(rt: &impl Abort, group: &str) -> UserRow {
    let mut groups = ArrayVec::new();
    groups.push(Name::of(group).expect(rt, "long"));
    UserRow {
        name: Name::of("ana").expect(rt, "long"),
        digest: [0; 32],
        groups,
        active: true,
    }
}

// Whether a user of a group has a permission.
fn is_allowed(rt: &impl Abort, policy: &Policy, group: &str, permission: Permission) -> bool {
    let user = member(rt, group);
    let allowed = policy.allowed(&user, permission);
    drop(user);
    allowed
}

const GROUPS: &str =
    "[groups]\nprinters = ['PRINT', 'STATUS']\nselectors = ['FILES_SELECT']\nidle = []\n";

// The policy of settings with these groups.
fn policy_of(rt: &(impl Abort + Alloc<A = Global>), groups: &str) -> Policy {
    let mut settings = settings_of(rt, PRINTER, ADMIN, groups);
    let groups = mem::replace(&mut settings.groups, Groups::new(rt.alloc()));
    let admin = settings.admin.take();
    drop(settings);
    Policy::new(groups, admin)
}

// A group, and whether its users have a permission.
const ALLOWED: [(&str, Permission, bool); 4] = [
    ("printers", Permission::Print, true),
    ("printers", Permission::Control, false),
    ("selectors", Permission::FilesSelect, true),
    ("idle", Permission::Status, false),
];

#[test]
fn groups(rt: HostRuntime) {
    let policy = policy_of(&rt, GROUPS);
    for (group, permission, wanted) in &ALLOWED {
        assert!(rt;
            is_allowed(&rt, &policy, group, *permission) == *wanted,
            "{group}"
        );
    }
    drop(policy);
}

const SCRIPTS: &str =
    "[scripts]\nbeforePrintStarted = ['M107']\nafterPrintDone = [' M84 ; off', 'N1 G28']\n\
afterPrinterConnected = ['M115']\nbeforePrinterDisconnected = ['M18']\nafterPrintPaused = ['G91']\n\
beforePrintResumed = ['G90']\nafterPrintCancelled = ['M104 S0']\n";

// Each point with its commands.
const COMMANDS: [(Point, &[&str]); 7] = [
    (Point::Started, &["M107"]),
    (Point::Done, &["M84", "G28"]),
    (Point::Connected, &["M115"]),
    (Point::Disconnect, &["M18"]),
    (Point::Paused, &["G91"]),
    (Point::Resumed, &["G90"]),
    (Point::Cancelled, &["M104 S0"]),
];

// Scripts are the commands of their lines; each is at its point.
#[test]
fn scripts(rt: HostRuntime) {
    let settings = settings_of(&rt, PRINTER, ADMIN, SCRIPTS);
    for (point, wanted) in &COMMANDS {
        has(&rt, &settings.scripts, *point, wanted);
    }
    drop(settings);
}

const TEXT: &[u8] = b"[printer]\nports = ['p']\n[admin]\nname = 'root'\n\
key_sha256 = '470dc872b1b47dac8456c9f0800583d1176d1a2f194b626000379d1d7d7fc920'\n\
[groups]\nprinters = ['PRINT']\n[scripts]\nbeforePrintStarted = ['M107']\n";

// Each call that allocates; allocation succeeds.
#[test]
fn ample(rt: HostRuntime) {
    let settings = read_bytes(rt.alloc(), TEXT).expect(&rt, "refused");
    assert_eq!(rt; settings.scripts.count(Point::Started), 1);
    drop(settings);
}
