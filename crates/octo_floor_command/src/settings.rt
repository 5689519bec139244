//! The settings of a floor, from a file.
ghost use Rattle.std.specs.Prelude.{◌≡◌, ◌≢◌, ◌⊎◌, Err, IfErr, IfOk, true};
ghost use Rattle.octo_outside.specs.Recorded.{Counts};
ghost use Rattle.octo_files.specs.Settings.{is_settings_refusal};
ghost use Rattle.octo_files.specs.declared.report.Report.TheVariants as report;
ghost use Rattle.octo_settings.specs.Sound.{IsFloorSettings};
ghost use Rattle.octo_floor_command.specs.Settings.{AreFloorSettings, HaveFloorSettings};

use octo_files::Report;
use octo_outside::{ReadAll, Source, read_all};
use octo_settings::{FloorSettings, MOST_SETTINGS_BYTES, SettingsFault, read_floor_settings};
use std::alloc::Global;

// The settings that bytes say.
fn settings_of_bytes(alloc: Global, bytes: &[u8]) -> Result<FloorSettings, Report>
    ensures exact { (result ≡ Err report.NoMemory) ⊎ AreFloorSettings bytes.now result }
    ensures sound { IfOk result IsFloorSettings }
    ensures refusal { IfErr result (λ r. is_settings_refusal r ≡ true) }
    ensures source { result ≢ Err report.SourceFailed }
{
    match read_floor_settings(alloc, bytes) {
        Ok(settings) => Ok(settings),
        Err(SettingsFault::NoMemory) => Err(Report::NoMemory),
        Err(fault) => Err(Report::BadSettings(fault)),
    }
}

// The settings that the file of that name says. Refused is a file of over 1,048,576 bytes as one that isn't TOML, and otherwise the
// first fault of its keys.
pub(crate) fn read_settings_file<F: Source>(
    alloc: Global,
    files: &mut F,
    name: &str,
) -> Result<FloorSettings, Report>
    // The result.
    ensures exact { HaveFloorSettings (F.files files.old) name.now result }
    ensures sound { IfOk result IsFloorSettings }
    ensures refusal { IfErr result (λ r. is_settings_refusal r ≡ true) }

    // The source.
    ensures files { F.files files.new ≡ F.files files.old }
    ensures counts { Counts (result ≡ Err report.SourceFailed)
        (F.faults files.old) (F.faults files.new) }
{
    match read_all(alloc, files, name, MOST_SETTINGS_BYTES) {
        Ok(bytes) => settings_of_bytes(alloc, bytes.as_slice()),
        Err(ReadAll::Failed) => Err(Report::SourceFailed),
        Err(ReadAll::TooLong) => Err(Report::BadSettings(SettingsFault::NotToml)),
        Err(ReadAll::NoMemory) => Err(Report::NoMemory),
    }
}
