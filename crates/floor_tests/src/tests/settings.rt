//! The settings of a floor.
use octo_settings::{FloorSettings, SettingsFault, read_floor_settings};
use std::alloc::Global;
use std::process::Abort;
use std::test::Fail;

// What a print host's settings need.
const HOST: &str = "[printer]\nports = ['p']\n[admin]\nname = 'root'\n\
key_sha256 = '3d6dc258f967781f8598c11af4d699e0a7f3f5f52f6b1a0f0931150933a2d5ae'\n";

// Settings of a host with these lines after them.
fn read(alloc: Global, text: &str) -> Result<Result<FloorSettings, SettingsFault>, Fail> {
    let whole = format!(in alloc; "{HOST}{text}\n")?;
    Ok(read_floor_settings(alloc, whole.as_bytes()))
}

// The settings of the demo of two printers, and how many ports and materials they have.
#[test]
fn two_printers(rt: HostRuntime) -> Result<(), Fail> {
    let text = "[floor]\nports = ['a', 'b']\nmaterials = ['PLA', 'PETG']";
    let floor = read(rt.alloc(), text)?.ok().ok_or("refused")?;
    assert_eq!(rt; floor.ports.as_slice().len(), 2);
    assert_eq!(rt; floor.ports.as_slice()[1].as_str(), "b");
    assert_eq!(rt; floor.materials.as_slice().len(), 2);
    assert_eq!(rt; floor.materials.as_slice()[1].as_str(), "PETG");
    Ok(())
}

// A fault that names a key.
#[derive(Clone, Copy)]
enum Why {
    Missing,
    Kind,
    Range,
}

fn is_fault(fault: &SettingsFault, why: Why, wanted: &str) -> bool {
    match fault {
        SettingsFault::Missing { key } => matches!(why, Why::Missing) && key.as_str() == wanted,
        SettingsFault::WrongKind { key } => matches!(why, Why::Kind) && key.as_str() == wanted,
        SettingsFault::OutOfRange { key } => matches!(why, Why::Range) && key.as_str() == wanted,
        _ => false,
    }
}

// Whether settings with these lines have that fault.
fn has_fault(alloc: Global, text: &str, why: Why, wanted: &str) -> Result<bool, Fail> {
    match read(alloc, text)?.err() {
        Some(fault) => Ok(is_fault(&fault, why, wanted)),
        None => Ok(false),
    }
}

// Settings with each of these lines have that fault.
fn faults(rt: &impl Abort, alloc: Global, cases: &[(&str, Why, &str)]) -> Result<(), Fail> {
    for (text, why, wanted) in cases {
        let has = has_fault(alloc, text, *why, wanted)?;
        assert!(rt; has, "{text}");
    }
    Ok(())
}

// A section that is missing or wrong, or ports that are. A fault of the ports comes before one of the materials.
const PORTS: [(&str, Why, &str); 7] = [
    ("", Why::Missing, "floor.ports"),
    ("[[floor]]", Why::Kind, "floor"),
    ("[floor]", Why::Missing, "floor.ports"),
    ("[floor]\nports = 'a'", Why::Kind, "floor.ports"),
    ("[floor]\nports = ['a', 1]", Why::Kind, "floor.ports"),
    ("[floor]\nports = ['a']", Why::Range, "floor.ports"),
    (
        "[floor]\nports = ['a', '']\nmaterials = 5",
        Why::Range,
        "floor.ports",
    ),
];

#[test]
fn ports(rt: HostRuntime) -> Result<(), Fail> {
    faults(&rt, rt.alloc(), &PORTS)
}

// Materials that are missing, of the wrong kind, no names, or more or fewer than the ports.
const MATERIALS: [(&str, Why, &str); 6] = [
    ("", Why::Missing, "floor.materials"),
    ("materials = 'PLA'", Why::Kind, "floor.materials"),
    ("materials = ['PLA']", Why::Range, "floor.materials"),
    ("materials = ['PLA', 'P LA']", Why::Range, "floor.materials"),
    ("materials = ['PLA', '']", Why::Range, "floor.materials"),
    (
        "materials = ['PLA', 'PETG', 'ABS']",
        Why::Range,
        "floor.materials",
    ),
];

#[test]
fn materials(rt: HostRuntime) -> Result<(), Fail> {
    let alloc = rt.alloc();
    for (text, why, wanted) in &MATERIALS {
        let whole = format!(in alloc; "[floor]\nports = ['a', 'b']\n{text}")?;
        let has = has_fault(alloc, whole.as_str(), *why, wanted)?;
        assert!(rt; has, "{text}");
    }
    Ok(())
}

// Eight printers, and nine.
const EIGHT: &str = "[floor]\nports = ['1', '2', '3', '4', '5', '6', '7', '8']\n\
materials = ['any', 'any', 'any', 'any', 'any', 'any', 'any', 'any']";

const NINE: &str = "[floor]\nports = ['1', '2', '3', '4', '5', '6', '7', '8', '9']\n\
materials = ['any', 'any', 'any', 'any', 'any', 'any', 'any', 'any', 'any']";

#[test]
fn eight_printers_at_most(rt: HostRuntime) -> Result<(), Fail> {
    let alloc = rt.alloc();
    assert!(rt; read(alloc, EIGHT)?.is_ok());
    assert!(rt; has_fault(alloc, NINE, Why::Range, "floor.ports")?);
    Ok(())
}

// A fault of a print host's settings comes before one of the floor's.
#[test]
fn the_host_is_read_first(rt: HostRuntime) -> Result<(), Fail> {
    let fault = read_floor_settings(rt.alloc(), b"[printer]\nports = []\n[floor]\nports = 5").err();
    let fault = fault.ok_or("read")?;
    assert!(rt; is_fault(&fault, Why::Range, "printer.ports"));
    Ok(())
}
