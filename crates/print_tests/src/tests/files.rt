//! Prints of files, and their reports.
use super::makers::{SOUND, Wire, link_of};
use byte_text::Name;
use octo_commands_print::print_file;
use octo_files::{Report, write_report};
use octo_outside::{CallList, MemoryClock, MemorySink, MemorySource, calls_of};
use std::alloc::Global;
use std::process::Abort;
use std::test::Fail;
use test_makers::LossyLink;

// Settings of a window of one line.
const ONE_LINE: &[u8] =
    b"printer.ports = [\"p\"]\nprinter.window = 1\nadmin.name = \"a\"\nadmin.key_sha256 = \"0123456789abcdef0123456789abcdef0123456789abcdef0123456789abcdef\"\n";

// A file of these bytes, and those settings.
fn source_of(alloc: Global, bytes: &[u8]) -> Result<MemorySource, Fail> {
    let mut files = MemorySource::new(alloc, CallList::new(alloc));
    files.put("a", bytes)?;
    files.put("one_line", ONE_LINE)?;
    Ok(files)
}

// The report of a print of these bytes over a link of whose replies these are lost, by whether the `ok`s have numbers.
fn report_of(
    alloc: Global,
    bytes: &[u8],
    settings: Option<&str>,
    sure: bool,
    lost: &[u64],
) -> Result<Report, Fail> {
    let port = Name::of("p")?;
    let mut files = source_of(alloc, bytes)?;
    let wire = Wire {
        numbered: sure,
        ..SOUND
    };
    let mut link = LossyLink::new(link_of(alloc, &wire)?, calls_of(alloc, lost)?);
    let mut clock = MemoryClock::new(0, 1_000);
    Ok(print_file(
        alloc, &mut files, &mut link, &mut clock, &port, "a", 1_000, settings, sure,
    ))
}

// What is reported, and with which exit status.
fn is_written_as(rt: &impl Abort, alloc: Global, report: &Report, text: &str, code: u8) {
    let mut out = MemorySink::new(alloc, CallList::new(alloc));
    assert!(rt; write_report(&mut out, report).is_ok());
    assert_eq!(rt; out.written(), Some(text.as_bytes()));
    assert_eq!(rt; report.code(), code);
}

const TWO_LINES: &[u8] = b"G28 ; home\n; nothing\nG1 X10\n";

#[test]
fn ample(rt: HostRuntime) -> Result<(), Fail> {
    let report = report_of(rt.alloc(), TWO_LINES, None, false, &[])?;
    is_written_as(&rt, rt.alloc(), &report, "done: 2 commands, 1 skipped\n", 0);
    Ok(())
}

// The `ok` of the last line is lost.
#[test]
fn sure(rt: HostRuntime) -> Result<(), Fail> {
    let report = report_of(rt.alloc(), TWO_LINES, None, true, &[3])?;
    is_written_as(&rt, rt.alloc(), &report, "done: 2 commands, 1 skipped\n", 0);
    Ok(())
}

// The same without numbers: the print ends for a missing `ok`.
#[test]
fn unsure(rt: HostRuntime) -> Result<(), Fail> {
    let report = report_of(rt.alloc(), TWO_LINES, None, false, &[3])?;
    let text = "session ended: an ok is missing, 20 limits\n";
    is_written_as(&rt, rt.alloc(), &report, text, 6);
    Ok(())
}

// A window of one line is refused.
#[test]
fn sure_in_a_window_of_one(rt: HostRuntime) -> Result<(), Fail> {
    let report = report_of(rt.alloc(), TWO_LINES, Some("one_line"), true, &[])?;
    let text = "settings: printer.numbered_oks: out of range\n";
    is_written_as(&rt, rt.alloc(), &report, text, 7);
    Ok(())
}
