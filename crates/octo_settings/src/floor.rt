//! The settings of a floor as a whole.
ghost use Rattle.std.specs.Prelude.{◌≡◌, IfOk, MatchResult, Err, IsUtf8};
ghost use Rattle.octo_settings.specs.Values.{Reads};
ghost use Rattle.octo_settings.specs.declared.fault.SettingsFault.TheVariants.{NotToml};
ghost use Rattle.octo_settings.specs.Floor.{printers_or, with_printers, floor_config};
ghost use Rattle.octo_settings.specs.Sound.{IsSettings, ArePrinters, IsFloorSettings};

use crate::fault::SettingsFault;
use crate::printers::{Printers, read_printers};
use crate::settings::{Settings, read_document, read_text};
use crate::values::value_of;
use octo_outside::NameList;
use std::alloc::Global;
use std::str;

/// The settings of a floor of 2 to 8 printers.
#[derive(Drop)]
pub struct FloorSettings {
    /// What a print host reads, too.
    pub settings: Settings,
    /// The name of each printer's port.
    pub ports: NameList,
    /// The name of the material in each printer; `any` fits every queue entry.
    pub materials: NameList,
}

// The printers that a text lists.
fn read_printers_of(alloc: Global, text: &str) -> Result<Printers, SettingsFault>
    ensures exact { Reads result (printers_or text.now) }
    ensures sound { IfOk result (λ printers. ArePrinters printers.ports printers.materials) }
{
    let table = read_document(alloc, text)?;
    read_printers(alloc, value_of(&table, "floor"))
}

// The settings of a floor, from those of a print host and the text that they were read from.
fn with_printers(
    alloc: Global,
    settings: Settings,
    text: &str,
) -> Result<FloorSettings, SettingsFault>
    requires { IsSettings settings }
    ensures exact { Reads result (with_printers settings (printers_or text.now)) }
    ensures sound { IfOk result IsFloorSettings }
{
    match read_printers_of(alloc, text) {
        Ok(Printers { ports, materials }) => Ok(FloorSettings {
            settings,
            ports,
            materials,
        }),
        Err(fault) => Err(fault),
    }
}

fn read_floor_text(alloc: Global, text: &str) -> Result<FloorSettings, SettingsFault>
    ensures exact { Reads result (floor_config text.now) }
    ensures sound { IfOk result IsFloorSettings }
{
    let settings = read_text(alloc, text)?;
    with_printers(alloc, settings, text)
}

/// Reads the settings of a floor in TOML: first all that [`crate::read_settings`] reads, with the same faults, and then the lists
/// `floor.ports` and `floor.materials`, both of 2 to 8 names. The materials are names as those of queue entries; if they are not
/// as many as the ports, then `floor.materials` is out of range. Bytes that aren't UTF-8 aren't TOML.
///
/// Source: TOML 1.1.
pub fn read_floor_settings(alloc: Global, bytes: &[u8]) -> Result<FloorSettings, SettingsFault>
    ensures text { IsUtf8 bytes.now → Reads result (floor_config bytes.now) }
    ensures no_text { (IsUtf8 bytes.now → ⊥) → result ≡ Err NotToml }
    ensures sound { IfOk result IsFloorSettings }
{
    match str::from_utf8(bytes) {
        Ok(text) => read_floor_text(alloc, text),
        Err(_) => Err(SettingsFault::NotToml),
    }
}
