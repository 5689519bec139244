//! Settings that are refused for their length, or a key of one value.
use super::*;
use std::alloc::Global;
use std::process::Abort;

// A key of the printer that is out of its range, or of the wrong kind.
const PRINTERS: [(&str, Why, &str); 20] = [
    ("window = 0", Why::Range, "printer.window"),
    ("window = 17", Why::Range, "printer.window"),
    ("window = 4.0", Why::Kind, "printer.window"),
    ("limit_ms = 999", Why::Range, "printer.limit_ms"),
    ("limit_ms = 600001", Why::Range, "printer.limit_ms"),
    ("limit_ms = '1000'", Why::Kind, "printer.limit_ms"),
    ("poll_ms = 999", Why::Range, "printer.poll_ms"),
    ("poll_ms = 600001", Why::Range, "printer.poll_ms"),
    ("poll_ms = true", Why::Kind, "printer.poll_ms"),
    ("boot_ms = -1", Why::Range, "printer.boot_ms"),
    ("boot_ms = 60001", Why::Range, "printer.boot_ms"),
    ("boot_ms = '3000'", Why::Kind, "printer.boot_ms"),
    ("material = ''", Why::Range, "printer.material"),
    ("material = 'P L A'", Why::Range, "printer.material"),
    ("material = 1", Why::Kind, "printer.material"),
    ("connect = 1", Why::Kind, "printer.connect"),
    ("connect = 'true'", Why::Kind, "printer.connect"),
    ("numbered_oks = 1", Why::Kind, "printer.numbered_oks"),
    (
        "window = 1\nnumbered_oks = true",
        Why::Range,
        "printer.numbered_oks",
    ),
    (
        "numbered_oks = 1\nconnect = 1",
        Why::Kind,
        "printer.connect",
    ),
];

#[test]
fn printers(rt: HostRuntime) {
    faults(&rt, PRINTER, ADMIN, &PRINTERS);
}

// Ports that are missing, of the wrong kind, too few, too many or without a name.
const PORTS: [(&str, Why, &str); 8] = [
    ("", Why::Missing, "printer.ports"),
    ("[printer]", Why::Missing, "printer.ports"),
    ("printer = 5", Why::Kind, "printer"),
    ("[printer]\nports = 'p'", Why::Kind, "printer.ports"),
    ("[printer]\nports = ['p', 1]", Why::Kind, "printer.ports"),
    ("[printer]\nports = []", Why::Range, "printer.ports"),
    ("[printer]\nports = ['p', '']", Why::Range, "printer.ports"),
    (SEVENTEEN, Why::Range, "printer.ports"),
];

// Seventeen ports.
const SEVENTEEN: &str =
    "[printer]\nports = ['1', '2', '3', '4', '5', '6', '7', '8', '9', '10', '11', \
'12', '13', '14', '15', '16', '17']";

#[test]
fn ports(rt: HostRuntime) {
    faults(&rt, "", ADMIN, &PORTS);
}

// A value of a hundred bytes between these texts is read.
fn hundred_read(rt: &(impl Abort + Alloc<A = Global>), head: &str, before: &str, after: &str) {
    let text = format!(in rt.alloc(); "{before}{HUNDRED}{after}").expect(rt, "no memory");
    let is_read = is_read(rt, head, text.as_str(), "");
    drop(text);
    assert!(rt; is_read, "{before}");
}

// A value of a hundred bytes between these texts is read, and one of a byte more is out of range.
fn hundred_at_most(
    rt: &(impl Abort + Alloc<A = Global>),
    head: &str,
    before: &str,
    after: &str,
    key: &str,
) {
    hundred_read(rt, head, before, after);
    let longer = format!(in rt.alloc(); "{before}{HUNDRED}x{after}").expect(rt, "no memory");
    assert_fault(rt, head, "", longer.as_str(), Why::Range, key);
    drop(longer);
}

// Fifteen ports, and the beginning of one more.
const SIXTEEN: &str =
    "[printer]\nports = ['1', '2', '3', '4', '5', '6', '7', '8', '9', '10', '11', \
'12', '13', '14', '15', '";

// A port, and the beginning of the material.
const MATERIAL: &str = "[printer]\nports = ['p']\nmaterial = '";

// A printer and the admin's key; lines that follow belong to him.
const NAMELESS: &str = "[printer]\nports = ['p']\n[admin]\n\
key_sha256 = '3d6dc258f967781f8598c11af4d699e0a7f3f5f52f6b1a0f0931150933a2d5ae'";

#[test]
fn long_names(rt: HostRuntime) {
    hundred_at_most(&rt, PRINTER_AND_ADMIN, EIGHT, "']", "serve.origins");
    hundred_at_most(&rt, ADMIN, SIXTEEN, "']", "printer.ports");
    hundred_at_most(&rt, ADMIN, MATERIAL, "'", "printer.material");
    hundred_at_most(&rt, NAMELESS, "name = '", "'", "admin.name");
}

// Seven origins, and the beginning of one more.
const EIGHT: &str = "[serve]\norigins = ['1', '2', '3', '4', '5', '6', '7', '";

// Origins that are of the wrong kind, too many or empty.
const ORIGINS: [(&str, Why, &str); 6] = [
    ("[serve]\norigins = 'http://a'", Why::Kind, "serve.origins"),
    (
        "[serve]\norigins = ['http://a', 1]",
        Why::Kind,
        "serve.origins",
    ),
    (
        "[serve]\norigins = ['http://a', '']",
        Why::Range,
        "serve.origins",
    ),
    (NINE, Why::Range, "serve.origins"),
    // The first of two faults, in the order of the keys.
    (
        "[serve]\norigins = 1\npatience = 0",
        Why::Range,
        "serve.patience",
    ),
    (
        "[groups]\nusers = []\n[serve]\norigins = 1",
        Why::Kind,
        "serve.origins",
    ),
];

// Nine origins.
const NINE: &str = "[serve]\norigins = ['1', '2', '3', '4', '5', '6', '7', '8', '9']";

#[test]
fn origins(rt: HostRuntime) {
    faults(&rt, "", PRINTER_AND_ADMIN, &ORIGINS);
}

const PRINTER_AND_ADMIN: &str = "[printer]\nports = ['p']\n[admin]\nname = 'root'\n\
key_sha256 = '3d6dc258f967781f8598c11af4d699e0a7f3f5f52f6b1a0f0931150933a2d5ae'\n";

// The other sections: not a table, out of range, of the wrong kind, missing.
const SECTIONS: [(&str, Why, &str); 16] = [
    ("limits = 5", Why::Kind, "limits"),
    ("[limits]\ntool = -1", Why::Range, "limits.tool"),
    ("[limits]\ntool = 501", Why::Range, "limits.tool"),
    ("[limits]\ntool = '300'", Why::Kind, "limits.tool"),
    ("[limits]\nbed = -1", Why::Range, "limits.bed"),
    ("[limits]\nbed = 201", Why::Range, "limits.bed"),
    ("[limits]\nbed = 1e2", Why::Kind, "limits.bed"),
    ("serve = 'x'", Why::Kind, "serve"),
    ("[serve]\npatience = 0", Why::Range, "serve.patience"),
    (
        "[serve]\npatience = 4000000001",
        Why::Range,
        "serve.patience",
    ),
    ("[serve]\npatience = []", Why::Kind, "serve.patience"),
    ("groups = []", Why::Kind, "groups"),
    ("scripts = []", Why::Kind, "scripts"),
    // The first of two faults, in the order of the keys.
    (
        "[serve]\npatience = 0\n[limits]\nbed = 201",
        Why::Range,
        "limits.bed",
    ),
    (
        "[groups]\nusers = []\n[serve]\npatience = 0",
        Why::Range,
        "serve.patience",
    ),
    (
        "[scripts]\nafterPrintDone = 1\n[groups]\nusers = []",
        Why::Range,
        "groups",
    ),
];

#[test]
fn sections(rt: HostRuntime) {
    faults(&rt, "", PRINTER_AND_ADMIN, &SECTIONS);
}

// A printer, and an admin; lines that follow belong to him.
const IN_ADMIN: &str = "[printer]\nports = ['p']\n[admin]";

// The admin: his name, and then his key.
const ADMINS: [(&str, Why, &str); 9] = [
    ("", Why::Missing, "admin.name"),
    ("name = 1", Why::Kind, "admin.name"),
    ("name = ''", Why::Range, "admin.name"),
    ("name = 'root user'", Why::Range, "admin.name"),
    ("name = 'root'", Why::Missing, "admin.key_sha256"),
    (
        "name = 'root'\nkey_sha256 = 1",
        Why::Kind,
        "admin.key_sha256",
    ),
    (
        "name = 'root'\nkey_sha256 = '3d6dc2'",
        Why::Range,
        "admin.key_sha256",
    ),
    (
        "name = 'root'\nkey_sha256 = '3d6dc258f967781f8598c11af4d699e0a7f3f5f52f6b1a0f0931150933a2d5ae0'",
        Why::Range,
        "admin.key_sha256",
    ),
    (
        "name = 'root'\nkey_sha256 = 'xd6dc258f967781f8598c11af4d699e0a7f3f5f52f6b1a0f0931150933a2d5ae'",
        Why::Range,
        "admin.key_sha256",
    ),
];

#[test]
fn admins(rt: HostRuntime) {
    faults(&rt, IN_ADMIN, "", &ADMINS);
    assert_fault(&rt, PRINTER, "", "", Why::Missing, "admin.name");
    assert_fault(&rt, "admin = 1", PRINTER, "", Why::Kind, "admin");
}

// Whether these bytes aren't TOML.
fn is_not_toml(alloc: Global, bytes: &[u8]) -> bool {
    let fault = read_bytes(alloc, bytes).err();
    let is_it = matches!(&fault, Some(SettingsFault::NotToml));
    drop(fault);
    is_it
}

// An array without an end, no key, a key that comes twice, and bytes that are no text.
const NOT_TOML: [&[u8]; 4] = [b"ports = [", b"= 1", b"a = 1\na = 2\n", b"# \xff\n"];

#[test]
fn not_toml(rt: HostRuntime) {
    for bytes in &NOT_TOML {
        assert!(&rt; is_not_toml(rt.alloc(), bytes));
    }
}

// Good settings that a comment makes that long, in bytes.
fn long_settings(rt: &(impl Abort + Alloc<A = Global>), length: usize) -> String {
    let shorter = PRINTER_AND_ADMIN.len() + 1;
    let rest = "x"
        .repeat(rt.alloc(), length.saturating_sub(shorter))
        .expect(rt, "no memory");
    let settings = format!(in rt.alloc(); "{PRINTER_AND_ADMIN}#{rest}").expect(rt, "no memory");
    drop(rest);
    settings
}

// Settings may have 1,048,576 bytes.
#[test]
fn longest(rt: HostRuntime) {
    let text = long_settings(&rt, 1_048_576);
    assert_eq!(rt; text.len(), 1_048_576);
    let fault = read_bytes(rt.alloc(), text.as_bytes()).err();
    drop(text);
    assert!(&rt; fault.is_none());
    drop(fault);
}

// Those of one byte more aren't TOML.
#[test]
fn too_long(rt: HostRuntime) {
    let text = long_settings(&rt, 1_048_577);
    assert!(&rt; is_not_toml(rt.alloc(), text.as_bytes()));
    drop(text);
}
