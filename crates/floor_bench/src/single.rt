//! A print by itself.
ghost use Rattle.std.specs.Prelude.{◌≡◌, false};
ghost use Rattle.printer_link.specs.Memory.{link_world};

use crate::file::FILE;
use byte_text::Name;
use gcode_lines::{Job, read_commands};
use octo_outside::{Blob, MemoryClock};
use octo_session_print::{PrintEnd, run_print};
use printer_link::MemoryLink;
use std::alloc::Global;
use test_makers::{CLEAN, PORT, link_of, session_of};

// The turns within which each print ends.
const TURNS: u64 = 1_000_000_000;

// The commands of this number of copies of the file.
fn job_of(alloc: Global, copies: u32) -> Option<Job> {
    let mut bytes = Blob::new(alloc);
    for _ in 0..copies {
        bytes.append(FILE).ok()?;
    }
    read_commands(alloc, bytes.as_slice()).ok()
}

// Prints this number of copies of the file over a new link, as one file. Returns whether the print was done.
fn print_over(alloc: Global, link: &mut MemoryLink, copies: u32) -> Option<bool>
    requires down { (link_world link.old).linked ≡ false }
    requires lost { link.old.story.oks.lost ≡ false }
    requires numbered { link.old.story.oks.numbered ≡ false }
{
    let mut session = session_of(alloc, false)?;
    let Some(job) = job_of(alloc, copies) else {
        drop(session);
        return None;
    };
    let mut clock = MemoryClock::new(0, 10);
    let port = Name::of_short(PORT);
    let name = Name::of_short("a.gcode");
    let end = run_print(&mut session, link, &mut clock, &port, &name, job, TURNS);
    drop(session);
    Some(end == PrintEnd::Done)
}

// Prints this number of copies of the file, as one file, on a printer in memory. Returns its link, with what was done over it.
// None if out of memory, or if the print wasn't done.
pub(crate) fn print_alone(alloc: Global, copies: u32) -> Option<MemoryLink> {
    let mut link = link_of(alloc, &CLEAN, &[])?;
    if print_over(alloc, &mut link, copies) != Some(true) {
        drop(link);
        return None;
    }
    Some(link)
}
