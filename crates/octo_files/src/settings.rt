//! The settings of a command.
ghost use Rattle.std.specs.Prelude.{◌≡◌, ◌≢◌, ◌⊎◌, Err, IfErr, IfOk, Ok, true, IsUtf8};
ghost use Rattle.octo_outside.specs.Recorded.{Counts};
ghost use Rattle.octo_files.specs.declared.report.Report.TheVariants as report;
ghost use Rattle.octo_settings.specs.Config.{plain_settings};
ghost use Rattle.octo_settings.specs.Sound.{IsSettings};
ghost use Rattle.octo_files.specs.Reading.{FileGives, IsTroubled};
ghost use Rattle.octo_files.specs.Settings.{AreSettings, HaveSettings, is_settings_refusal};
ghost use Rattle.std.specs.Option.{option_map};

use crate::Report;
use octo_outside::{ReadAll, Source, read_all};
use octo_settings::{MOST_SETTINGS_BYTES, Settings, SettingsFault, read_settings};
use std::alloc::Global;

// The settings that bytes say.
fn settings_of_bytes(alloc: Global, bytes: &[u8]) -> Result<Settings, Report>
    ensures exact { (result ≡ Err report.NoMemory) ⊎ AreSettings bytes.now result }
    ensures sound { IfOk result IsSettings }
    ensures refusal { IfErr result (λ r. is_settings_refusal r ≡ true) }
    ensures source { result ≢ Err report.SourceFailed }
{
    match read_settings(alloc, bytes) {
        Ok(settings) => Ok(settings),
        Err(SettingsFault::NoMemory) => Err(Report::NoMemory),
        Err(fault) => Err(Report::BadSettings(fault)),
    }
}

// The settings that the file of that name says.
fn read_settings_file<F: Source>(
    alloc: Global,
    files: &mut F,
    name: &str,
) -> Result<Settings, Report>
    // The result.
    ensures exact { IsTroubled result
        ⊎ FileGives (F.files files.old) name.now (λ bytes. AreSettings bytes result) }
    ensures sound { IfOk result IsSettings }
    ensures refusal { IfErr result (λ r. is_settings_refusal r ≡ true) }

    // The source.
    ensures files { F.files files.new ≡ F.files files.old }
    ensures counts { Counts (result ≡ Err report.SourceFailed)
        (F.faults files.old) (F.faults files.new) }
{
    match read_all(alloc, files, name, MOST_SETTINGS_BYTES) {
        Ok(bytes) => settings_of_bytes(alloc, bytes.as_slice()),
        Err(ReadAll::Failed) => Err(Report::SourceFailed),
        Err(ReadAll::TooLong) => Err(Report::BadSettings(SettingsFault::NotToml)),
        Err(ReadAll::NoMemory) => Err(Report::NoMemory),
    }
}

/// The settings of the file of that name, or the defaults if no file is named, which reads nothing. Refused is a file of over
/// 1,048,576 bytes as one that isn't TOML, and otherwise the first fault of its keys.
pub fn read_settings_of<F: Source>(
    alloc: Global,
    files: &mut F,
    name: Option<&str>,
) -> Result<Settings, Report>
    // The result.
    ensures exact { HaveSettings (F.files files.old) (option_map (λ n. n.now) name.entry) result }
    ensures sound { IfOk result IsSettings }
    ensures refusal { IfErr result (λ r. is_settings_refusal r ≡ true) }

    // The source.
    ensures files { F.files files.new ≡ F.files files.old }
    ensures counts { Counts (result ≡ Err report.SourceFailed)
        (F.faults files.old) (F.faults files.new) }
{
    match name {
        None => Ok(Settings::plain(alloc)),
        Some(name) => read_settings_file(alloc, files, name),
    }
}
