// The section `floor`: the ports and the materials of the printers.
ghost use Rattle.std.specs.Prelude.{◌≡◌, ◌≤◌, ◌<◌, length, IfOk, Ok};
ghost use Rattle.byte_text.specs.declared.name.TheConstants.{MOST_NAME_BYTES};
ghost use Rattle.octo_access.specs.Names.{name_of};
ghost use Rattle.toml.specs.Data.{Data};
ghost use Rattle.toml.specs.View.{view, table_view};
ghost use Rattle.octo_settings.specs.Seen.{data_of_value};
ghost use Rattle.octo_settings.specs.Sections.{short_text};
ghost use Rattle.octo_settings.specs.Values.{Reads, each};
ghost use Rattle.octo_settings.specs.Printers.{key_of, item_of, items_in, items_of, printers_in, printers_of};

use crate::fault::{SettingsFault, missing, out_of_range, wrong_kind};
use crate::texts::read_texts;
use crate::values::value_of;
use byte_text::Name;
use octo_access::read_name;
use octo_outside::{NameList, WordList};
use std::alloc::Global;
use toml::{Table, Value};

/// The fewest printers of a floor.
pub const FEWEST_PRINTERS: usize = 2;

/// The most printers of a floor.
pub const MOST_PRINTERS: usize = 8;

// A key of the section: what it lists of each printer.
#[derive(Clone, Copy)]
pub(crate) enum FloorKey {
    Ports,
    Materials,
}

// What the section says of the printers: the port and the material of each.
#[derive(Drop)]
pub(crate) struct Printers {
    pub(crate) ports: NameList,
    pub(crate) materials: NameList,
}

impl FloorKey {
    // The key as faults name it.
    fn key(self) -> &'static str
        ensures key { result.now ≡ key_of self }
        ensures short { length result.now ≤ MOST_NAME_BYTES }
    {
        match self {
            FloorKey::Ports => "floor.ports",
            FloorKey::Materials => "floor.materials",
        }
    }
}

// A port's name.
fn read_port(key: &str, text: &str) -> Result<Name, SettingsFault>
    requires { length key.now ≤ MOST_NAME_BYTES }
    ensures { result ≡ short_text key.now text.now }
{
    if text.is_empty() {
        return Err(out_of_range(key));
    }
    match Name::from_text(text) {
        Some(port) => Ok(port),
        None => Err(out_of_range(key)),
    }
}

// An item of a list.
fn read_item(key: FloorKey, text: &str) -> Result<Name, SettingsFault>
    ensures { result ≡ item_of key text.now }
{
    match key {
        FloorKey::Ports => read_port("floor.ports", text),
        FloorKey::Materials => match read_name(text) {
            Some(material) => Ok(material),
            None => Err(out_of_range("floor.materials")),
        },
    }
}

fn read_item_list(alloc: Global, key: FloorKey, texts: &WordList) -> Result<NameList, SettingsFault>
    ensures { Reads result (each (item_of key) texts.now) }
{
    let mut names = NameList::new(alloc);
    for i in 0..texts.count() {
        let name = read_item(key, texts.get(i))?;
        if names.push(name).is_err() {
            return Err(SettingsFault::NoMemory);
        }
    }
    Ok(names)
}

fn read_items_in(alloc: Global, key: FloorKey, texts: &WordList) -> Result<NameList, SettingsFault>
    ensures { Reads result (items_in key texts.now) }
{
    let count = texts.count();
    if count < FEWEST_PRINTERS || count > MOST_PRINTERS {
        return Err(out_of_range(key.key()));
    }
    read_item_list(alloc, key, texts)
}

fn read_items(
    alloc: Global,
    key: FloorKey,
    value: Option<&Value>,
) -> Result<NameList, SettingsFault>
    ensures { Reads result (items_of key (data_of_value value.entry)) }
{
    let Some(value) = value else {
        return Err(missing(key.key()));
    };
    let texts = read_texts(alloc, key.key(), value)?;
    read_items_in(alloc, key, &texts)
}

fn read_printers_in(alloc: Global, table: &Table) -> Result<Printers, SettingsFault>
    ensures { Reads result (printers_in (table_view table.now)) }
{
    let ports = read_items(alloc, FloorKey::Ports, value_of(table, "ports"))?;
    let materials = read_items(alloc, FloorKey::Materials, value_of(table, "materials"))?;
    if materials.as_slice().len() != ports.as_slice().len() {
        return Err(out_of_range("floor.materials"));
    }
    Ok(Printers { ports, materials })
}

// The printers of a document.
pub(crate) fn read_printers(alloc: Global, value: Option<&Value>) -> Result<Printers, SettingsFault>
    ensures { Reads result (printers_of (data_of_value value.entry)) }
{
    match value {
        None => Err(missing("floor.ports")),
        Some(Value::Table(table)) => read_printers_in(alloc, table),
        Some(_) => Err(wrong_kind("floor")),
    }
}
