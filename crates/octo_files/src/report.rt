//! How a command ended.
ghost use Rattle.std.specs.Prelude.{◌≡◌};
ghost use Rattle.octo_files.specs.Status.{settings_code, file_code};

use crate::status::{
    BAD_ARGUMENTS, FILE_REFUSED, LINK_FAILED, OUT_OF_MEMORY, SESSION_ENDED, SETTINGS_REFUSED,
    SOURCE_FAILED, SUCCESS, TURNS_USED,
};
use arrayvec::ArrayVec;
use byte_text::Name;
use gcode_lines::FileFault;
use gcode_measure::{Measure, MeasureFault};
use octo_outside::Blob;
use octo_settings::SettingsFault;
use send_window::SessionEnd;
use temp_rules::HotLine;

/// How a command ended. Temperatures are in whole degrees Celsius.
#[derive(Drop)]
pub enum Report {
    /// Each command of the file was executed; `skipped` lines hold no command.
    Printed {
        commands: u32,
        skipped: u32,
    },
    /// What a check counted, and the greatest temperatures that the file asks for.
    Checked {
        commands: u32,
        skipped: u32,
        tool: u64,
        bed: u64,
    },
    /// What the file's moves measure.
    Measured(Measure),
    /// The rest of the file, from a command on.
    Rest(Blob),
    /// What a demo reports of its print, and the exit status of that print.
    Demo {
        text: ArrayVec<u8, 256>,
        status: u8,
    },
    /// The arguments are no command.
    BadWords,
    /// The settings are refused.
    BadSettings(SettingsFault),
    /// The file is refused.
    BadFile(FileFault),
    /// A command of the file is too hot.
    TooHot(HotLine),
    /// The file can't be measured.
    BadMeasure(MeasureFault),
    /// The file ends before that command: it has `count` commands.
    Past {
        count: u32,
    },
    /// The file or the settings can't be read.
    SourceFailed,
    /// The link to the printer failed.
    LinkFailed,
    /// The link lists no port of that name.
    NoPort {
        port: Name,
    },
    /// The session with the printer ended by its own rules.
    Ended(SessionEnd),
    /// This number of turns was made, and the print wasn't over.
    TurnsUsed {
        turns: u64,
    },
    /// Out of memory.
    NoMemory,
}

// The exit status of refused settings.
fn settings_code(fault: &SettingsFault) -> u8
    ensures { result ≡ settings_code fault.now }
{
    match fault {
        SettingsFault::NoMemory => OUT_OF_MEMORY,
        _ => SETTINGS_REFUSED,
    }
}

// The exit status of a refused file.
fn file_code(fault: FileFault) -> u8
    ensures { result ≡ file_code fault }
{
    match fault {
        FileFault::NoMemory => OUT_OF_MEMORY,
        _ => FILE_REFUSED,
    }
}

impl Report {
    ghost use Rattle.octo_files.specs.Status.{code_of};

    /// The exit status of the program.
    pub fn code(&self) -> u8
        ensures { result ≡ code_of self.now }
    {
        match self {
            Report::Printed { .. }
            | Report::Checked { .. }
            | Report::Measured(_)
            | Report::Rest(_) => SUCCESS,
            Report::Demo { status, .. } => *status,
            Report::BadWords => BAD_ARGUMENTS,
            Report::BadSettings(fault) => settings_code(fault),
            Report::BadFile(fault) => file_code(*fault),
            Report::TooHot(_) | Report::BadMeasure(_) | Report::Past { .. } => FILE_REFUSED,
            Report::SourceFailed => SOURCE_FAILED,
            Report::LinkFailed | Report::NoPort { .. } => LINK_FAILED,
            Report::Ended(_) => SESSION_ENDED,
            Report::TurnsUsed { .. } => TURNS_USED,
            Report::NoMemory => OUT_OF_MEMORY,
        }
    }
}
