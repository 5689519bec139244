//! Writing a report.
ghost use Rattle.std.specs.Prelude.{◌≡◌, [], false, OnOk, OnErr, IsErr};
ghost use Rattle.octo_outside.specs.Recorded.{Adds, AddsPrefix, Counts};
ghost use Rattle.octo_files.specs.Texts.{is_rest, report_text};

use crate::page::Page;
use crate::report::Report;
use crate::texts::put_report;
use octo_outside::{Failed, Sink, write_all};

// Writes the text of a report that isn't a file.
fn write_page<O: Sink>(out: &mut O, report: &Report) -> Result<(), Failed>
    requires { is_rest report.now ≡ false }

    // What is written.
    ensures ok { OnOk result (Adds (O.written out.old) (O.written out.new) (report_text report.now)) }
    ensures err { OnErr result
        (AddsPrefix (O.written out.old) (O.written out.new) (report_text report.now)) }

    // The sink's faults.
    ensures counts { Counts (IsErr result) (O.faults out.old) (O.faults out.new) }
{
    let mut page = Page::new();
    put_report(&mut page, report);
    write_all(out, page.as_slice())
}

/// Writes the text of a report without taking memory; after a failed call a prefix of it was written.
pub fn write_report<O: Sink>(out: &mut O, report: &Report) -> Result<(), Failed>
    // What is written.
    ensures ok { OnOk result (Adds (O.written out.old) (O.written out.new) (report_text report.now)) }
    ensures err { OnErr result
        (AddsPrefix (O.written out.old) (O.written out.new) (report_text report.now)) }

    // The sink's faults.
    ensures counts { Counts (IsErr result) (O.faults out.old) (O.faults out.new) }
{
    match report {
        Report::Rest(text) => write_all(out, text.as_slice()),
        _ => write_page(out, report),
    }
}
