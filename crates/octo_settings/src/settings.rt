//! The settings as a whole.
ghost use Rattle.std.specs.Prelude.{◌≡◌, ◌⊎◌, IfOk, MatchResult, Some, None, Err, IsUtf8};
ghost use Rattle.toml.specs.View.{table_view};
ghost use Rattle.octo_settings.specs.Config.{document_of, settings_in, config, plain_settings, with_numbers};
ghost use Rattle.octo_settings.specs.Sound.{IsSettings};
ghost use Rattle.octo_settings.specs.Values.{Reads};
ghost use Rattle.octo_settings.specs.declared.fault.SettingsFault.TheVariants.{NotToml, NoMemory};

use crate::fault::{SettingsFault, out_of_range};
use crate::groups::read_groups;
use crate::scripts::read_scripts;
use crate::sections::{read_admin, read_limits, read_printer, read_serve};
use crate::values::at;
use byte_text::Name;
use job_desk::Scripts;
use octo_access::{Admin, Groups};
use octo_outside::NameList;
use print_queue::any_material;
use std::alloc::Global;
use std::str;
use temp_rules::Limits;
use toml::{Table, table_from_str};

/// The most bytes of settings.
pub const MOST_SETTINGS_BYTES: usize = 1_048_576;

/// The settings of a print host. A sender and a desk can be made with any that were read.
#[derive(Drop)]
pub struct Settings {
    /// The names of the printer's ports. Serving connects to the first one if no other is asked for.
    pub ports: NameList,
    /// How many lines may be sent and unacknowledged: 1 to 16.
    pub window: u8,
    /// After how many milliseconds without a reply a line is sent again.
    pub limit_ms: u64,
    /// How many milliseconds apart the printer is asked for its temperatures.
    pub poll_ms: u64,
    /// How many milliseconds the printer may take to start after its port was opened; `None` leaves it to the kind of port.
    pub boot_ms: Option<u16>,
    /// The name of the material in the printer; `any` fits every queue entry.
    pub material: Name,
    /// Whether serving connects to the first port by itself.
    pub connect: bool,
    /// Whether the printer's `ok`s have numbers, as those of a Marlin built with `ADVANCED_OK` have. The window is then at least 2.
    pub numbered_oks: bool,
    /// The greatest temperatures that a command may ask for, in degrees Celsius.
    pub limits: Limits,
    /// The user who has every permission.
    pub admin: Option<Admin>,
    /// How many turns serving waits for a message.
    pub patience: u32,
    /// The origins whose pages may read the replies of the REST API: at most 8 texts of 1 to 100 bytes.
    pub origins: NameList,
    /// The groups beside those that are built in.
    pub groups: Groups,
    /// The commands that are sent around connections and prints.
    pub scripts: Scripts,
}

impl Settings {
    /// The defaults: no port, no admin, no group and no script. Takes no memory.
    pub fn plain(alloc: Global) -> Settings
        ensures exact { result ≡ plain_settings }
        ensures sound { IsSettings result }
    {
        defaults(alloc)
    }

    /// The printer's `ok`s have numbers, whatever the settings say. Refused as OutOfRange with the key `printer.numbered_oks` if the
    /// window is 1; the settings are then as before.
    #[tactic(auto, using(crate::proofs::Sound::numbered_sound))]
    pub fn set_numbered(&mut self) -> Result<(), SettingsFault>
        ensures answer { result ≡ (with_numbers self.old).0 }
        ensures after { self.new ≡ (with_numbers self.old).1 }
        ensures sound { IsSettings self.old → IsSettings self.new }
    {
        if self.window < 2 {
            return Err(out_of_range("printer.numbered_oks"));
        }
        self.numbered_oks = true;
        Ok(())
    }
}

fn defaults(alloc: Global) -> Settings
    ensures { result ≡ plain_settings }
{
    Settings {
        ports: NameList::new(alloc),
        window: 4,
        limit_ms: 30_000,
        poll_ms: 5_000,
        boot_ms: None,
        material: any_material(),
        connect: false,
        numbered_oks: false,
        limits: Limits {
            tool: 300,
            bed: 120,
        },
        admin: None,
        patience: 6_000,
        origins: NameList::new(alloc),
        groups: Groups::new(alloc),
        scripts: Scripts::new(alloc),
    }
}

// The table that a text is.
pub(crate) fn read_document(alloc: Global, text: &str) -> Result<Table, SettingsFault>
    ensures { MatchResult result
        (λ table. document_of text.now ≡ Some (table_view table))
        (λ fault. (fault ≡ NoMemory) ⊎ ((fault ≡ NotToml) × (document_of text.now ≡ None))) }
{
    if text.len() > MOST_SETTINGS_BYTES {
        return Err(SettingsFault::NotToml);
    }
    match table_from_str(alloc, text) {
        Ok(table) => Ok(table),
        Err(error) if error.is_memory() => Err(SettingsFault::NoMemory),
        Err(_) => Err(SettingsFault::NotToml),
    }
}

fn read_table(alloc: Global, table: &Table) -> Result<Settings, SettingsFault>
    ensures { Reads result (settings_in (table_view table.now)) }
{
    let table = Some(table);
    let printer = read_printer(alloc, at(table, "printer"))?;
    let limits = read_limits(at(table, "limits"))?;
    let admin = read_admin(at(table, "admin"))?;
    let serve = read_serve(alloc, at(table, "serve"))?;
    let groups = read_groups(alloc, at(table, "groups"))?;
    let scripts = read_scripts(alloc, &limits, at(table, "scripts"))?;
    Ok(Settings {
        ports: printer.ports,
        window: printer.window,
        limit_ms: printer.limit_ms,
        poll_ms: printer.poll_ms,
        boot_ms: printer.boot_ms,
        material: printer.material,
        connect: printer.connect,
        numbered_oks: printer.numbered_oks,
        limits,
        admin: Some(admin),
        patience: serve.patience,
        origins: serve.origins,
        groups,
        scripts,
    })
}

// The settings that a text says.
pub(crate) fn read_text(alloc: Global, text: &str) -> Result<Settings, SettingsFault>
    ensures exact { Reads result (config text.now) }
    ensures sound { IfOk result IsSettings }
{
    let table = read_document(alloc, text)?;
    read_table(alloc, &table)
}

/// Reads settings in TOML. Keys that no section of this crate names are passed over.
///
/// The fault is the first one in the order of the fields of [`Settings`]; groups are read in byte order of their names, and
/// scripts in the order of [`job_desk::Point`], line by line. Bytes that aren't UTF-8 aren't TOML.
///
/// Source: TOML 1.1.
pub fn read_settings(alloc: Global, bytes: &[u8]) -> Result<Settings, SettingsFault>
    ensures text { IsUtf8 bytes.now → Reads result (config bytes.now) }
    ensures no_text { (IsUtf8 bytes.now → ⊥) → result ≡ Err NotToml }
    ensures sound { IfOk result IsSettings }
{
    match str::from_utf8(bytes) {
        Ok(text) => read_text(alloc, text),
        Err(_) => Err(SettingsFault::NotToml),
    }
}
