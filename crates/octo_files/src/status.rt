//! The exit statuses of the program `octo`.

/// All was done.
pub const SUCCESS: u8 = 0;

/// The arguments are no command.
pub const BAD_ARGUMENTS: u8 = 2;

/// The file is refused or can't be measured, a command of it is too hot, or it ends too early.
pub const FILE_REFUSED: u8 = 3;

/// The file or the settings can't be read.
pub const SOURCE_FAILED: u8 = 4;

/// The link to the printer failed, or lists no port of that name.
pub const LINK_FAILED: u8 = 5;

/// The session with the printer ended by its own rules.
pub const SESSION_ENDED: u8 = 6;

/// The settings are refused.
pub const SETTINGS_REFUSED: u8 = 7;

/// The report couldn't be written.
pub const OUTPUT_FAILED: u8 = 8;

/// A host's tables can't be read, or its files can't be listed.
pub const STORE_FAILED: u8 = 9;

/// The turns were used up, and the print wasn't over.
pub const TURNS_USED: u8 = 10;

/// Out of memory.
pub const OUT_OF_MEMORY: u8 = 11;

/// A door of a host failed.
pub const DOOR_FAILED: u8 = 12;
