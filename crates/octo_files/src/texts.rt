//! The text of each report but the rest of a file.
ghost use Rattle.std.specs.Prelude.{◌≡◌, ◌++◌, [], codes, decimal, false};
ghost use Rattle.gcode_measure.specs.Shown.{measure_text};
ghost use Rattle.octo_files.specs.Texts.{printed_text, checked_text, port_text, past_text, turns_text, is_rest, report_text};

use crate::faults::{put_end, put_file, put_hot, put_measure_fault, put_settings};
use crate::page::{Page, append_whole};
use crate::report::Report;
use byte_text::{Name, append};
use gcode_measure::{Measure, measure_text};

fn put_printed(page: &mut Page, commands: u32, skipped: u32)
    requires { page.old.items ≡ [] }
    ensures { page.new.items ≡ printed_text commands skipped }
{
    append(page, b"done: ");
    append_whole(page, u64::from(commands));
    append(page, b" commands, ");
    append_whole(page, u64::from(skipped));
    append(page, b" skipped\n");
}

fn put_checked(page: &mut Page, commands: u32, skipped: u32, tool: u64, bed: u64)
    requires { page.old.items ≡ [] }
    ensures { page.new.items ≡ checked_text commands skipped tool bed }
{
    append(page, b"commands ");
    append_whole(page, u64::from(commands));
    append(page, b"\nskipped ");
    append_whole(page, u64::from(skipped));
    append(page, b"\nhottest tool ");
    append_whole(page, tool);
    append(page, b"\nhottest bed ");
    append_whole(page, bed);
    append(page, b"\n");
}

fn put_measure(page: &mut Page, measure: &Measure)
    ensures { page.new.items ≡ measure_text measure.now }
{
    *page = measure_text(measure);
}

fn put_port(page: &mut Page, port: &Name)
    requires { page.old.items ≡ [] }
    ensures { page.new.items ≡ port_text port.now }
{
    append(page, b"port ");
    append(page, port.as_bytes());
    append(page, b" is not listed\n");
}

fn put_past(page: &mut Page, count: u32)
    requires { page.old.items ≡ [] }
    ensures { page.new.items ≡ past_text count }
{
    append(page, b"file: ");
    append_whole(page, u64::from(count));
    append(page, b" commands\n");
}

fn put_turns(page: &mut Page, turns: u64)
    requires { page.old.items ≡ [] }
    ensures { page.new.items ≡ turns_text turns }
{
    append(page, b"turns used: ");
    append_whole(page, turns);
    append(page, b"\n");
}

// Puts the text of a report that isn't a file.
pub(crate) fn put_report(page: &mut Page, report: &Report)
    requires empty { page.old.items ≡ [] }
    requires short { is_rest report.now ≡ false }
    ensures { page.new.items ≡ report_text report.now }
{
    match report {
        Report::Printed { commands, skipped } => put_printed(page, *commands, *skipped),
        Report::Checked {
            commands,
            skipped,
            tool,
            bed,
        } => put_checked(page, *commands, *skipped, *tool, *bed),
        Report::Measured(measure) => put_measure(page, measure),
        Report::Rest(_) => unreachable!(),
        Report::Demo { text, .. } => append(page, text.as_slice()),
        Report::BadWords => append(page, b"octo: bad words\n"),
        Report::BadSettings(fault) => put_settings(page, fault),
        Report::BadFile(fault) => put_file(page, *fault),
        Report::TooHot(hot) => put_hot(page, *hot),
        Report::BadMeasure(fault) => put_measure_fault(page, *fault),
        Report::Past { count } => put_past(page, *count),
        Report::SourceFailed => append(page, b"source failed\n"),
        Report::LinkFailed => append(page, b"link failed\n"),
        Report::NoPort { port } => put_port(page, port),
        Report::Ended(end) => put_end(page, *end),
        Report::TurnsUsed { turns } => put_turns(page, *turns),
        Report::NoMemory => append(page, b"no memory\n"),
    }
}
