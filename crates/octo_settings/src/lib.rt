//! The settings of a print host, read from TOML: its ports, how it sends, its limits, its admin, its groups and its scripts; those of a floor of printers
//! with each printer's port and material, too; and the
//! session of a printer by them.
#![tactic(auto)]

mod fault;
mod floor;
mod groups;
mod names;
mod printers;
mod scripts;
mod sections;
mod session;
mod settings;
mod texts;
mod values;

pub use fault::SettingsFault;
pub use floor::{FloorSettings, read_floor_settings};
pub use printers::{FEWEST_PRINTERS, MOST_PRINTERS};
pub use scripts::script_key;
pub use settings::{MOST_SETTINGS_BYTES, Settings, read_settings};
