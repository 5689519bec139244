//! The command `floor`: settings read, a floor begun, and run.
ghost use Rattle.std.specs.Prelude.{◌≡◌, All, None, Ok, false, true};
ghost use Rattle.octo_files.specs.Settings.{is_settings_refusal};
ghost use Rattle.octo_files.specs.declared.report.Report.{Report};
ghost use Rattle.octo_files.specs.declared.report.Report.TheVariants as report;
ghost use Rattle.octo_floor.specs.Links.{link_states};
ghost use Rattle.octo_floor_bay.specs.Bay.{IsBay};
ghost use Rattle.octo_settings.specs.Sound.{IsFloorSettings};
ghost use Rattle.octo_settings.specs.declared.floor.FloorSettings.{FloorSettings};
ghost use Rattle.octo_floor.specs.Objects.{store_state};
ghost use Rattle.octo_outside.specs.Recorded.{Counts};
ghost use Rattle.printer_link.specs.Suits.{SuitsAs};
ghost use Rattle.octo_floor_command.specs.Beginning.{around};
ghost use Rattle.octo_floor_command.specs.Links.{EachLink};
ghost use Rattle.octo_floor_command.specs.Running.{RunsBy, Floors, HasFloorCauses};
ghost use Rattle.octo_floor_command.specs.Settings.{HaveFloorSettings};
ghost use Rattle.octo_floor_command.specs.declared.report.FloorReport.TheVariants as floor;

use crate::beginning::begin_by;
use crate::report::{FloorReport, floor_fault_report};
use crate::settings::read_settings_file;
use octo_floor::{Floor, Links, Watch};
use octo_floor_bay::Bay;
use octo_keeper::{Keeper, Shelf};
use octo_outside::{Clock, Source};
use octo_settings::FloorSettings;
use printer_link::Link;
use std::alloc::Global;

/// How the command `floor` ended.
#[derive(Drop)]
pub struct FloorDone {
    /// What is reported.
    pub report: FloorReport,
    /// The floor, exactly if it ran.
    pub floor: Option<Floor>,
}

impl FloorDone {
    // The end of a floor that didn't begin.
    fn unrun(report: FloorReport) -> FloorDone
        ensures { result ≡ record { report = report; floor = None } }
    {
        FloorDone {
            report,
            floor: None,
        }
    }
}

// The bays' own facts: the deeds of each lead to its session.
fn know_bays(bays: &[Bay])
    ensures { All IsBay bays.now }
{
    for bay in bays {
        let _ = bay.session();
    }
}

// Runs a floor by these settings.
fn run_by<L: Link + Drop, T: Clock, K: Keeper, S: Shelf, W: Watch>(
    alloc: Global,
    settings: FloorSettings,
    turns: u64,
    links: &mut Links<L>,
    clock: &mut T,
    keeper: &mut K,
    shelf: &mut S,
    watch: &mut W,
) -> FloorDone
    requires sound { IsFloorSettings settings }
    requires down { EachLink (λ l. (L.state l).up ≡ false) links.old }
    requires suits { EachLink
        (λ l. SuitsAs settings.settings.numbered_oks (L.state l).past (L.state l).kind.oks)
        links.old }
    ensures runs { RunsBy settings turns
        (around (link_states L.state links.old)
        (store_state (K.state keeper.old) (S.state shelf.old)))
        (around (link_states L.state links.new)
        (store_state (K.state keeper.new) (S.state shelf.new)))
        result.report result.floor }
    ensures causes { HasFloorCauses
        (around (link_states L.state links.old)
        (store_state (K.state keeper.old) (S.state shelf.old)))
        (around (link_states L.state links.new)
        (store_state (K.state keeper.new) (S.state shelf.new))) result.report }
    ensures refusal { (why : Report) → result.report ≡ floor.Command why → why ≡ report.NoMemory }
{
    let mut floor = match begin_by(alloc, settings, keeper, shelf) {
        Ok(floor) => floor,
        Err(fault) => return FloorDone::unrun(floor_fault_report(fault)),
    };
    let end = floor.run(links, keeper, shelf, clock, turns, watch);
    know_bays(floor.printers());
    FloorDone {
        report: FloorReport::Ran { end, turns },
        floor: Some(floor),
    }
}

/// Prints the queue that the keeper keeps on the printers of the settings of that file, with the files of the shelf, until nothing
/// more can be started, in at most `turns` rounds.
///
/// The settings are read first, and refused as by any other command; then the tables and the files are. Only then a link is used.
/// `watch` is shown what happens, and changes nothing of it.
pub fn run_floor<F: Source, L: Link + Drop, T: Clock, K: Keeper, S: Shelf, W: Watch>(
    alloc: Global,
    files: &mut F,
    settings: &str,
    turns: u64,
    links: &mut Links<L>,
    clock: &mut T,
    keeper: &mut K,
    shelf: &mut S,
    watch: &mut W,
) -> FloorDone
    requires down { EachLink (λ l. (L.state l).up ≡ false) links.old }
    requires suits { (s : FloorSettings) → HaveFloorSettings (F.files files.old) settings.now (Ok s)
        → EachLink (λ l. SuitsAs s.settings.numbered_oks (L.state l).past (L.state l).kind.oks)
        links.old }

    // Theorem Floor: what it comes to, and each failure by its cause.
    ensures floors { Floors (F.files files.old) settings.now turns
        (around (link_states L.state links.old)
        (store_state (K.state keeper.old) (S.state shelf.old)))
        (around (link_states L.state links.new)
        (store_state (K.state keeper.new) (S.state shelf.new)))
        result.report result.floor }
    ensures causes { HasFloorCauses
        (around (link_states L.state links.old)
        (store_state (K.state keeper.old) (S.state shelf.old)))
        (around (link_states L.state links.new)
        (store_state (K.state keeper.new) (S.state shelf.new))) result.report }
    ensures refusal { (why : Report) → result.report ≡ floor.Command why
        → is_settings_refusal why ≡ true }

    // The source, which is read before.
    ensures files { F.files files.new ≡ F.files files.old }
    ensures source { Counts (result.report ≡ floor.Command report.SourceFailed)
        (F.faults files.old) (F.faults files.new) }
{
    match read_settings_file(alloc, files, settings) {
        Ok(settings) => run_by(alloc, settings, turns, links, clock, keeper, shelf, watch),
        Err(report) => FloorDone::unrun(FloorReport::Command(report)),
    }
}
