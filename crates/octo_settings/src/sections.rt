//! The sections of settings: the printer, its limits, the admin, and how serving treats connections.
ghost use Rattle.std.specs.Prelude.{◌≡◌, ◌≤◌, length};
ghost use Rattle.byte_text.specs.declared.name.TheConstants.{MOST_NAME_BYTES};
ghost use Rattle.hex.specs.Hex.{decode_sized};
ghost use Rattle.octo_access.specs.Names.{name_of};
ghost use Rattle.octo_settings.specs.Sections.{short_text, ports_in, ports_of, material_of, boot_of, flag_of, numbered_of, printer_in, printer_of, limits_in, limits_of, admin_name_of, digest_in, digest_of, admin_in, admin_of, origins_in, origins_of, serve_in, serve_of};
ghost use Rattle.octo_settings.specs.Seen.{members_or, data_of_value};
ghost use Rattle.octo_settings.specs.Values.{Reads, each, in_range};

use crate::fault::{SettingsFault, missing, out_of_range, wrong_kind};
use crate::texts::read_texts;
use crate::values::{at, read_section, read_whole};
use byte_text::Name;
use hex::FromHex;
use octo_access::{Admin, Digest, read_name};
use octo_outside::{NameList, WordList};
use print_queue::any_material;
use std::alloc::Global;
use temp_rules::Limits;
use toml::{Table, Value};

// What the section `printer` says.
#[derive(Drop)]
pub(crate) struct Printer {
    pub(crate) ports: NameList,
    pub(crate) window: u8,
    pub(crate) limit_ms: u64,
    pub(crate) poll_ms: u64,
    pub(crate) boot_ms: Option<u16>,
    pub(crate) material: Name,
    pub(crate) connect: bool,
    pub(crate) numbered_oks: bool,
}

// What the section `serve` says.
#[derive(Drop)]
pub(crate) struct Serve {
    pub(crate) patience: u32,
    pub(crate) origins: NameList,
}

// A port's name, or an origin.
fn read_short_text(key: &str, text: &str) -> Result<Name, SettingsFault>
    requires { length key.now ≤ MOST_NAME_BYTES }
    ensures { result ≡ short_text key.now text.now }
{
    if text.is_empty() {
        return Err(out_of_range(key));
    }
    match Name::from_text(text) {
        Some(name) => Ok(name),
        None => Err(out_of_range(key)),
    }
}

fn read_short_texts(alloc: Global, key: &str, texts: &WordList) -> Result<NameList, SettingsFault>
    requires { length key.now ≤ MOST_NAME_BYTES }
    ensures { Reads result (each (short_text key.now) texts.now) }
{
    let mut names = NameList::new(alloc);
    for i in 0..texts.count() {
        let name = read_short_text(key, texts.get(i))?;
        if names.push(name).is_err() {
            return Err(SettingsFault::NoMemory);
        }
    }
    Ok(names)
}

fn read_ports_in(alloc: Global, key: &str, texts: &WordList) -> Result<NameList, SettingsFault>
    requires { length key.now ≤ MOST_NAME_BYTES }
    ensures { Reads result (ports_in key.now texts.now) }
{
    let count = texts.count();
    if count < 1 || count > 16 {
        return Err(out_of_range(key));
    }
    read_short_texts(alloc, key, texts)
}

fn read_ports(alloc: Global, key: &str, value: Option<&Value>) -> Result<NameList, SettingsFault>
    requires { length key.now ≤ MOST_NAME_BYTES }
    ensures { Reads result (ports_of key.now (data_of_value value.entry)) }
{
    let Some(value) = value else {
        return Err(missing(key));
    };
    let texts = read_texts(alloc, key, value)?;
    read_ports_in(alloc, key, &texts)
}

// A text as a name.
fn read_named(key: &str, text: &str) -> Result<Name, SettingsFault>
    requires { length key.now ≤ MOST_NAME_BYTES }
    ensures { result ≡ in_range key.now (name_of text.now) }
{
    match read_name(text) {
        Some(name) => Ok(name),
        None => Err(out_of_range(key)),
    }
}

fn read_material(key: &str, value: Option<&Value>) -> Result<Name, SettingsFault>
    requires { length key.now ≤ MOST_NAME_BYTES }
    ensures { result ≡ material_of key.now (data_of_value value.entry) }
{
    match value {
        None => Ok(any_material()),
        Some(Value::String(text)) => read_named(key, text.as_str()),
        Some(_) => Err(wrong_kind(key)),
    }
}

// How long the printer may take to start, in milliseconds, if the settings say it.
fn read_boot(key: &str, value: Option<&Value>) -> Result<Option<u16>, SettingsFault>
    requires { length key.now ≤ MOST_NAME_BYTES }
    ensures { result ≡ boot_of key.now (data_of_value value.entry) }
{
    let Some(value) = value else {
        return Ok(None);
    };
    match read_whole(key, 0, 60_000, 0, Some(value)) {
        Ok(boot_ms) => Ok(Some(boot_ms as u16)),
        Err(fault) => Err(fault),
    }
}

// A yes or no, no if it is missing.
fn read_flag(key: &str, value: Option<&Value>) -> Result<bool, SettingsFault>
    requires { length key.now ≤ MOST_NAME_BYTES }
    ensures { result ≡ flag_of key.now (data_of_value value.entry) }
{
    match value {
        None => Ok(false),
        Some(Value::Boolean(flag)) => Ok(*flag),
        Some(_) => Err(wrong_kind(key)),
    }
}

// Whether the printer's `ok`s have numbers, which wants a window of at least 2 lines.
fn read_numbered(key: &str, window: u64, value: Option<&Value>) -> Result<bool, SettingsFault>
    requires { length key.now ≤ MOST_NAME_BYTES }
    ensures { result ≡ numbered_of key.now window (data_of_value value.entry) }
{
    let numbered = read_flag(key, value)?;
    if numbered && window < 2 {
        return Err(out_of_range(key));
    }
    Ok(numbered)
}

fn read_printer_in(alloc: Global, table: Option<&Table>) -> Result<Printer, SettingsFault>
    ensures { Reads result (printer_in (members_or table.entry)) }
{
    let ports = read_ports(alloc, "printer.ports", at(table, "ports"))?;
    let window = read_whole("printer.window", 1, 16, 4, at(table, "window"))?;
    let limit_ms = read_whole(
        "printer.limit_ms",
        1_000,
        600_000,
        30_000,
        at(table, "limit_ms"),
    )?;
    let poll_ms = read_whole(
        "printer.poll_ms",
        1_000,
        600_000,
        5_000,
        at(table, "poll_ms"),
    )?;
    let boot_ms = read_boot("printer.boot_ms", at(table, "boot_ms"))?;
    let material = read_material("printer.material", at(table, "material"))?;
    let connect = read_flag("printer.connect", at(table, "connect"))?;
    let numbered_oks = read_numbered("printer.numbered_oks", window, at(table, "numbered_oks"))?;
    Ok(Printer {
        ports,
        window: window as u8,
        limit_ms,
        poll_ms,
        boot_ms,
        material,
        connect,
        numbered_oks,
    })
}

pub(crate) fn read_printer(alloc: Global, value: Option<&Value>) -> Result<Printer, SettingsFault>
    ensures { Reads result (printer_of (data_of_value value.entry)) }
{
    match read_section("printer", value) {
        Ok(table) => read_printer_in(alloc, table),
        Err(fault) => Err(fault),
    }
}

fn read_limits_in(table: Option<&Table>) -> Result<Limits, SettingsFault>
    ensures { result ≡ limits_in (members_or table.entry) }
{
    let tool = read_whole("limits.tool", 0, 500, 300, at(table, "tool"))?;
    let bed = read_whole("limits.bed", 0, 200, 120, at(table, "bed"))?;
    Ok(Limits {
        tool: tool as u16,
        bed: bed as u16,
    })
}

pub(crate) fn read_limits(value: Option<&Value>) -> Result<Limits, SettingsFault>
    ensures { result ≡ limits_of (data_of_value value.entry) }
{
    match read_section("limits", value) {
        Ok(table) => read_limits_in(table),
        Err(fault) => Err(fault),
    }
}

fn read_digest(key: &str, value: Option<&Value>) -> Result<Digest, SettingsFault>
    requires { length key.now ≤ MOST_NAME_BYTES }
    ensures { result ≡ digest_of key.now (data_of_value value.entry) }
{
    match value {
        None => Err(missing(key)),
        Some(Value::String(text)) => digest_in(key, text.as_str()),
        Some(_) => Err(wrong_kind(key)),
    }
}

fn digest_in(key: &str, text: &str) -> Result<Digest, SettingsFault>
    requires { length key.now ≤ MOST_NAME_BYTES }
    ensures { result ≡ digest_in key.now (decode_sized text.now 32) }
{
    match <[u8; 32] as FromHex>::from_hex(text) {
        Ok(digest) => Ok(digest),
        Err(_) => Err(out_of_range(key)),
    }
}

fn read_admin_name(key: &str, value: Option<&Value>) -> Result<Name, SettingsFault>
    requires { length key.now ≤ MOST_NAME_BYTES }
    ensures { result ≡ admin_name_of key.now (data_of_value value.entry) }
{
    match value {
        None => Err(missing(key)),
        Some(Value::String(text)) => read_named(key, text.as_str()),
        Some(_) => Err(wrong_kind(key)),
    }
}

fn read_admin_in(table: Option<&Table>) -> Result<Admin, SettingsFault>
    ensures { result ≡ admin_in (members_or table.entry) }
{
    let name = read_admin_name("admin.name", at(table, "name"))?;
    let digest = read_digest("admin.key_sha256", at(table, "key_sha256"))?;
    Ok(Admin { name, digest })
}

pub(crate) fn read_admin(value: Option<&Value>) -> Result<Admin, SettingsFault>
    ensures { result ≡ admin_of (data_of_value value.entry) }
{
    match read_section("admin", value) {
        Ok(table) => read_admin_in(table),
        Err(fault) => Err(fault),
    }
}

fn read_origins_in(alloc: Global, key: &str, texts: &WordList) -> Result<NameList, SettingsFault>
    requires { length key.now ≤ MOST_NAME_BYTES }
    ensures { Reads result (origins_in key.now texts.now) }
{
    if texts.count() > 8 {
        return Err(out_of_range(key));
    }
    read_short_texts(alloc, key, texts)
}

fn read_origins(alloc: Global, key: &str, value: Option<&Value>) -> Result<NameList, SettingsFault>
    requires { length key.now ≤ MOST_NAME_BYTES }
    ensures { Reads result (origins_of key.now (data_of_value value.entry)) }
{
    let Some(value) = value else {
        return Ok(NameList::new(alloc));
    };
    let texts = read_texts(alloc, key, value)?;
    read_origins_in(alloc, key, &texts)
}

fn read_serve_in(alloc: Global, table: Option<&Table>) -> Result<Serve, SettingsFault>
    ensures { Reads result (serve_in (members_or table.entry)) }
{
    let patience = read_whole(
        "serve.patience",
        1,
        4_000_000_000,
        6_000,
        at(table, "patience"),
    )?;
    let origins = read_origins(alloc, "serve.origins", at(table, "origins"))?;
    Ok(Serve {
        patience: patience as u32,
        origins,
    })
}

pub(crate) fn read_serve(alloc: Global, value: Option<&Value>) -> Result<Serve, SettingsFault>
    ensures { Reads result (serve_of (data_of_value value.entry)) }
{
    match read_section("serve", value) {
        Ok(table) => read_serve_in(alloc, table),
        Err(fault) => Err(fault),
    }
}
