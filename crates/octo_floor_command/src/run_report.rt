//! The report of a run.
ghost use Rattle.std.specs.Prelude.{◌≡◌, ◌≤◌, ◌+◌, ◌++◌, [], decimal, OnOk, OnErr, IsErr};
ghost use Rattle.arrayvec.specs.ArrayVec.{array_vec_len};
ghost use Rattle.octo_outside.specs.Recorded.{Adds, AddsPrefix, Counts};
ghost use Rattle.octo_files.specs.Texts.{turns_text};
ghost use Rattle.octo_floor_command.specs.RunReports.{floor_code, counts_text, why_text, floor_text};

use arrayvec::ArrayVec;
use byte_text::append;
use itoa::Buffer;
use octo_files::{OUT_OF_MEMORY, STORE_FAILED, SUCCESS, TURNS_USED};
use octo_floor_bay::{FloorEnd, FloorFault, Why};
use octo_outside::{Failed, Sink, write_all};

/// The exit status of a run that is over, if a print failed or a printer was lost.
pub const PRINTS_FAILED: u8 = 13;

// A report's text, which has at most 256 bytes.
type Page = ArrayVec<u8, 256>;

/// The exit status of the program after a run of a floor.
pub fn floor_code(end: &FloorEnd) -> u8
    ensures { result ≡ floor_code end.now }
{
    match end.why {
        Why::Over if end.failed == 0 && end.lost == 0 => SUCCESS,
        Why::Over => PRINTS_FAILED,
        Why::Fault(FloorFault::NoMemory) => OUT_OF_MEMORY,
        Why::Fault(_) => STORE_FAILED,
        Why::TurnsUsed => TURNS_USED,
    }
}

// Adds a number in decimal.
fn append_whole(page: &mut Page, number: u64)
    requires { array_vec_len page.old + 40 ≤ 256 }
    ensures items { page.new.items ≡ page.old.items ++ decimal number }
    ensures len { array_vec_len page.new ≤ array_vec_len page.old + 40 }
{
    let mut buffer = Buffer::new();
    append(page, buffer.format(number).as_bytes());
}

// Puts how many prints were started, how they ended, and how many copies are left.
fn put_counts(page: &mut Page, end: &FloorEnd)
    requires { page.old.items ≡ [] }
    ensures items { page.new.items ≡ counts_text end.now }
    ensures len { array_vec_len page.new ≤ 198 }
{
    append(page, b"floor: ");
    append_whole(page, u64::from(end.prints));
    append(page, b" prints, ");
    append_whole(page, u64::from(end.done));
    append(page, b" done, ");
    append_whole(page, u64::from(end.failed));
    append(page, b" failed, ");
    append_whole(page, end.left);
    append(page, b" left\n");
}

// Adds that the turns were used up.
fn append_turns(page: &mut Page, turns: u64)
    requires { array_vec_len page.old ≤ 198 }
    ensures { page.new.items ≡ page.old.items ++ turns_text turns }
{
    append(page, b"turns used: ");
    append_whole(page, turns);
    append(page, b"\n");
}

// Adds why the run ended before it was over.
fn append_why(page: &mut Page, why: Why, turns: u64)
    requires { array_vec_len page.old ≤ 198 }
    ensures { page.new.items ≡ page.old.items ++ why_text why turns }
{
    match why {
        Why::Over => {}
        Why::Fault(FloorFault::KeeperFailed) => append(page, b"keeper failed\n"),
        Why::Fault(FloorFault::ShelfFailed) => append(page, b"shelf failed\n"),
        Why::Fault(FloorFault::NoMemory) => append(page, b"no memory\n"),
        Why::TurnsUsed => append_turns(page, turns),
    }
}

/// Writes how a run of a floor ended that might make that number of turns, without taking memory; after a failed call a prefix of
/// it was written.
pub fn write_floor_end<O: Sink>(out: &mut O, end: &FloorEnd, turns: u64) -> Result<(), Failed>
    // What is written.
    ensures ok { OnOk result
        (Adds (O.written out.old) (O.written out.new) (floor_text end.now turns)) }
    ensures err { OnErr result
        (AddsPrefix (O.written out.old) (O.written out.new) (floor_text end.now turns)) }

    // The sink's faults.
    ensures counts { Counts (IsErr result) (O.faults out.old) (O.faults out.new) }
{
    let mut page = Page::new();
    put_counts(&mut page, end);
    append_why(&mut page, end.why, turns);
    write_all(out, page.as_slice())
}
