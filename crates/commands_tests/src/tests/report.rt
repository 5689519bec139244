//! Reports, and what the commands on files report.
mod files;
mod reports;

use octo_files::{Report, write_report};
use octo_outside::{CallList, MemorySink};
use std::alloc::Global;
use std::process::Abort;

fn write(rt: &impl Abort, out: &mut MemorySink, report: &Report) {
    assert!(rt; write_report(out, report).is_ok());
}

// Writes a report, and compares its text.
fn assert_text(rt: &(impl Abort + Alloc<A = Global>), report: &Report, text: &[u8]) {
    let mut out = MemorySink::new(rt.alloc(), CallList::new(rt.alloc()));
    write(rt, &mut out, report);
    assert_eq!(rt; out.written().unwrap_or(&[]), text);
    drop(out);
}

// Compares a report's exit status, and the text that is written.
fn assert_report(rt: &(impl Abort + Alloc<A = Global>), report: Report, code: u8, text: &[u8]) {
    assert_eq!(rt; report.code(), code);
    assert_text(rt, &report, text);
    drop(report);
}
