//! How the progress of a print is shown.
ghost use Rattle.std.specs.Prelude.{◌≡◌};

use crate::host_log::HostLog;
use octo_files::{Report, check_file};
use octo_log_link::{ProgressLink, Showing};
use octo_outside::{FileSource, SystemClock, WordList};
use octo_words::{Command, FilePath, asks_progress, read_words};
use printer_link::Link;
use std::io::IsTerminal;
use std::path::Path;
use temp_rules::Limits;

// How a print's progress is shown, and how many commands its file has, if it is known.
#[derive(Clone, Copy)]
pub(crate) struct PrintView {
    pub(crate) showing: Showing,
    pub(crate) total: Option<u32>,
}

// That of a command whose progress isn't shown.
pub(crate) const UNSEEN: PrintView = PrintView {
    showing: Showing::Off,
    total: None,
};

// In place if the standard error is a terminal; otherwise by tenths if the arguments ask for it.
fn showing_of(system: &HostRuntime, words: &WordList) -> Showing {
    if system.stderr().is_terminal() {
        return Showing::InPlace;
    }
    match asks_progress(system.alloc(), words) {
        Ok(true) => Showing::Tenths,
        _ => Showing::Off,
    }
}

// How many commands a file has. What isn't a plain file, as a pipe, can be read only once, and the print reads it.
fn count_of(system: &HostRuntime, path: &FilePath) -> Option<u32> {
    if !Path::new(path.as_str()).is_file(system) {
        return None;
    }
    let any = Limits {
        tool: u16::MAX,
        bed: u16::MAX,
    };
    let mut files = FileSource::new(*system);
    match check_file(system.alloc(), &mut files, path.as_str(), &any) {
        Report::Checked { commands, .. } => Some(commands),
        _ => None,
    }
}

// The same of a print of this file.
fn view_of_file(system: &HostRuntime, words: &WordList, file: &FilePath) -> PrintView {
    let showing = showing_of(system, words);
    let total = match showing {
        Showing::Off => None,
        Showing::InPlace | Showing::Tenths => count_of(system, file),
    };
    PrintView { showing, total }
}

// The same of the command that the arguments are. Another command has no progress.
pub(crate) fn view_of(system: &HostRuntime, words: &WordList) -> PrintView {
    match read_words(system.alloc(), words) {
        Ok(Command::Print { file, .. }) => view_of_file(system, words, &file),
        _ => UNSEEN,
    }
}

// A link whose print is shown in this way.
pub(crate) fn with_progress<L: Link + Drop>(
    system: &HostRuntime,
    view: PrintView,
    link: L,
) -> ProgressLink<L, HostLog, SystemClock<HostRuntime>>
    ensures { result.link ≡ link }
{
    ProgressLink::new(
        link,
        HostLog::new(system, true),
        SystemClock::new(*system),
        view.showing,
        view.total,
    )
}
