//! How a command of the program ended, serving among them: its exit status and its text.
ghost use Rattle.std.specs.Prelude.{◌≡◌, ◌≤◌, ◌++◌, [], codes, OnOk, OnErr, IsErr};
ghost use Rattle.arrayvec.specs.ArrayVec.{array_vec_len};
ghost use Rattle.octo_outside.specs.Recorded.{Adds, AddsPrefix, Counts};
ghost use Rattle.octo_serve_command.specs.Reports.{host_code, host_text, calls_text};

use arrayvec::ArrayVec;
use byte_text::append;
use itoa::Buffer;
use octo_files::{DOOR_FAILED, Report, STORE_FAILED, SUCCESS, write_report};
use octo_outside::{Failed, Sink, write_all};

/// How a command of the program ended.
#[derive(Drop)]
pub enum HostReport {
    /// The host served that number of calls until it was shut down, and each door held.
    Served { calls: u64 },
    /// It served that number of calls, and a door failed.
    DoorFailed { calls: u64 },
    /// The tables can't be read, so the host didn't begin.
    KeeperFailed,
    /// The files can't be listed, so the host didn't begin.
    ShelfFailed,
    /// What commands that don't serve report, too.
    Command(Report),
}

impl HostReport {
    /// The exit status of the program.
    pub fn code(&self) -> u8
        ensures { result ≡ host_code self.now }
    {
        match self {
            HostReport::Served { .. } => SUCCESS,
            HostReport::DoorFailed { .. } => DOOR_FAILED,
            HostReport::KeeperFailed | HostReport::ShelfFailed => STORE_FAILED,
            HostReport::Command(report) => report.code(),
        }
    }
}

// How many calls were served.
fn calls_text(calls: u64) -> ArrayVec<u8, 64>
    ensures items { result.items ≡ calls_text calls }
    ensures short { array_vec_len result ≤ 52 }
{
    let mut buffer = Buffer::new();
    let mut text = ArrayVec::new();
    append(&mut text, b"served ");
    append(&mut text, buffer.format(calls).as_bytes());
    append(&mut text, b" calls\n");
    text
}

// The same, and that a door failed.
fn door_text(calls: u64) -> ArrayVec<u8, 64>
    ensures { result.items ≡ calls_text calls ++ codes "door failed\n" }
{
    let mut text = calls_text(calls);
    append(&mut text, b"door failed\n");
    text
}

/// Writes the text of a report, and takes no memory for it; after a failed call a prefix of it was written.
pub fn write_host_report<O: Sink>(out: &mut O, report: &HostReport) -> Result<(), Failed>
    // What is written.
    ensures ok { OnOk result
        (Adds (O.written out.old) (O.written out.new) (host_text report.now)) }
    ensures err { OnErr result
        (AddsPrefix (O.written out.old) (O.written out.new) (host_text report.now)) }

    // The sink's faults.
    ensures counts { Counts (IsErr result) (O.faults out.old) (O.faults out.new) }
{
    match report {
        HostReport::Served { calls } => write_all(out, calls_text(*calls).as_slice()),
        HostReport::DoorFailed { calls } => write_all(out, door_text(*calls).as_slice()),
        HostReport::KeeperFailed => write_all(out, b"keeper failed\n"),
        HostReport::ShelfFailed => write_all(out, b"shelf failed\n"),
        HostReport::Command(report) => write_report(out, report),
    }
}
