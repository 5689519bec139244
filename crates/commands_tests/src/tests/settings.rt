//! Settings that are read, the ends of each range, and the first fault of others.
mod keys;
mod lists;
mod values;

use octo_settings::{Settings, SettingsFault, read_settings};
use std::alloc::Global;
use std::process::Abort;

// What the settings need beside the printer: an admin, whose key is `ana-key-0123456789`.
const ADMIN: &str = "[admin]\nname = 'root'\n\
key_sha256 = '3d6dc258f967781f8598c11af4d699e0a7f3f5f52f6b1a0f0931150933a2d5ae'\n";

// A printer of one port; lines that follow belong to it.
const PRINTER: &str = "[printer]\nports = ['p']\n";

// Settings are read in one place, since the contract of that is long.
fn read_bytes(alloc: Global, bytes: &[u8]) -> Result<Settings, SettingsFault> {
    read_settings(alloc, bytes)
}

// Settings of three parts, one after the other, each with a line end.
fn read(
    rt: &(impl Abort + Alloc<A = Global>),
    head: &str,
    text: &str,
    tail: &str,
) -> Result<Settings, SettingsFault> {
    let whole = format!(in rt.alloc(); "{head}\n{text}\n{tail}").expect(rt, "no memory");
    let read = read_bytes(rt.alloc(), whole.as_bytes());
    drop(whole);
    read
}

// Such settings, which are read.
fn settings_of(
    rt: &(impl Abort + Alloc<A = Global>),
    head: &str,
    text: &str,
    tail: &str,
) -> Settings {
    read(rt, head, text, tail).expect(rt, "refused")
}

// Whether such settings are read.
fn is_read(rt: &(impl Abort + Alloc<A = Global>), head: &str, text: &str, tail: &str) -> bool {
    read(rt, head, text, tail).err().is_none()
}

// A hundred bytes.
const HUNDRED: &str = "0123456789012345678901234567890123456789012345678901234567890123456789\
012345678901234567890123456789";

// A fault that names a key.
#[derive(Clone, Copy)]
enum Why {
    Missing,
    Kind,
    Range,
}

fn is_fault(fault: &SettingsFault, why: Why, wanted: &str) -> bool {
    match fault {
        SettingsFault::Missing { key } => matches!(why, Why::Missing) && key.as_str() == wanted,
        SettingsFault::WrongKind { key } => matches!(why, Why::Kind) && key.as_str() == wanted,
        SettingsFault::OutOfRange { key } => matches!(why, Why::Range) && key.as_str() == wanted,
        _ => false,
    }
}

// Settings with this text between a head and a tail have that fault.
fn assert_fault(
    rt: &(impl Abort + Alloc<A = Global>),
    head: &str,
    tail: &str,
    text: &str,
    why: Why,
    wanted: &str,
) {
    let fault = read(rt, head, text, tail).err().expect(rt, "read");
    assert!(rt; is_fault(&fault, why, wanted), "{text}");
    drop(fault);
}

// Settings with each of these texts between a head and a tail have that fault.
fn faults(
    rt: &(impl Abort + Alloc<A = Global>),
    head: &str,
    tail: &str,
    cases: &[(&str, Why, &str)],
) {
    for (text, why, wanted) in cases {
        assert_fault(rt, head, tail, text, *why, wanted);
    }
}
