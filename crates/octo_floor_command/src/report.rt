//! How the command `floor` ended: its exit status and its text.
ghost use Rattle.std.specs.Prelude.{◌≡◌, OnOk, OnErr, IsErr};
ghost use Rattle.octo_outside.specs.Recorded.{Adds, AddsPrefix, Counts};
ghost use Rattle.octo_floor_command.specs.Reports.{floor_report_code, floor_report_text, floor_fault_report};

use crate::run_report::{floor_code, write_floor_end};
use octo_files::{Report, STORE_FAILED, write_report};
use octo_floor_bay::{FloorEnd, FloorFault};
use octo_outside::{Failed, Sink, write_all};

/// How the command `floor` ended.
#[derive(Drop)]
pub enum FloorReport {
    /// The floor ran, in at most that number of rounds.
    Ran { end: FloorEnd, turns: u64 },
    /// The tables can't be read, so the floor didn't begin.
    KeeperFailed,
    /// The files can't be listed, so the floor didn't begin.
    ShelfFailed,
    /// The settings were refused or can't be read, or memory ran out, before the floor began.
    Command(Report),
}

impl FloorReport {
    /// The exit status of the program.
    pub fn code(&self) -> u8
        ensures { result ≡ floor_report_code self.now }
    {
        match self {
            FloorReport::Ran { end, .. } => floor_code(end),
            FloorReport::KeeperFailed | FloorReport::ShelfFailed => STORE_FAILED,
            FloorReport::Command(report) => report.code(),
        }
    }
}

// Why a floor didn't begin.
pub(crate) fn floor_fault_report(fault: FloorFault) -> FloorReport
    ensures { result ≡ floor_fault_report fault }
{
    match fault {
        FloorFault::KeeperFailed => FloorReport::KeeperFailed,
        FloorFault::ShelfFailed => FloorReport::ShelfFailed,
        FloorFault::NoMemory => FloorReport::Command(Report::NoMemory),
    }
}

/// Writes the text of a report, and takes no memory for it; after a failed call a prefix of it was written.
pub fn write_floor_report<O: Sink>(out: &mut O, report: &FloorReport) -> Result<(), Failed>
    // What is written.
    ensures ok { OnOk result
        (Adds (O.written out.old) (O.written out.new) (floor_report_text report.now)) }
    ensures err { OnErr result
        (AddsPrefix (O.written out.old) (O.written out.new) (floor_report_text report.now)) }

    // The sink's faults.
    ensures counts { Counts (IsErr result) (O.faults out.old) (O.faults out.new) }
{
    match report {
        FloorReport::Ran { end, turns } => write_floor_end(out, end, *turns),
        FloorReport::KeeperFailed => write_all(out, b"keeper failed\n"),
        FloorReport::ShelfFailed => write_all(out, b"shelf failed\n"),
        FloorReport::Command(report) => write_report(out, report),
    }
}
