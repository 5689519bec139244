//! The lines of what a history says.
ghost use Rattle.std.specs.Prelude.{◌≡◌};
ghost use Rattle.std.specs.List.{list_any};
ghost use Rattle.octo_files.specs.Faults.{end_text};
ghost use Rattle.octo_log.specs.Logged.{Logs};
ghost use Rattle.octo_log_history.specs.Story.{change_line, fact_line, is_stop, issued_line, note_lines, note_paused, press_line};

use crate::press::Press;
use job_desk::{Issued, LinkFact, Note, SessionEnd};
use octo_files::{Report, write_report};
use octo_log::log_line;
use octo_outside::Sink;

// The line that stops a printer. Source: Marlin, M112 (emergency stop).
const STOP: &[u8] = b"M112";

// Logs that a print was paused, or that it goes on.
fn log_change<G: Sink>(log: &mut G, was_paused: bool, is_paused: bool)
    ensures { Logs (change_line was_paused is_paused) (G.written log.old) (G.written log.new)
        (G.faults log.old) (G.faults log.new) }
{
    match (was_paused, is_paused) {
        (false, true) => log_line(log, b"print: paused"),
        (true, false) => log_line(log, b"print: resumed"),
        _ => {}
    }
}

// Logs an ask that was accepted.
pub(crate) fn log_press<G: Sink>(log: &mut G, press: Press, was_paused: bool)
    ensures { Logs (press_line press was_paused) (G.written log.old) (G.written log.new)
        (G.faults log.old) (G.faults log.new) }
{
    match press {
        Press::End => {}
        _ => log_change(log, was_paused, press.paused_by(was_paused)),
    }
}

// Whether a line stops the printer.
fn is_stop(line: &Issued) -> bool
    ensures { result ≡ is_stop line.now }
{
    line.text.as_slice() == STOP
}

// Whether one of these lines does.
fn has_stop(lines: &[Issued]) -> bool
    ensures { result ≡ list_any is_stop lines.now }
{
    lines.iter().any(|line| is_stop(line))
}

// Logs a line that stops the printer, if it was issued.
fn log_issued<G: Sink>(log: &mut G, lines: &[Issued])
    ensures { Logs (issued_line lines.now) (G.written log.old) (G.written log.new)
        (G.faults log.old) (G.faults log.new) }
{
    if has_stop(lines) {
        log_line(log, b"printer: stopped by M112");
    }
}

// Logs why a session ended.
fn log_end<G: Sink>(log: &mut G, end: SessionEnd)
    ensures { Logs (end_text end) (G.written log.old) (G.written log.new)
        (G.faults log.old) (G.faults log.new) }
{
    let _ = write_report(log, &Report::Ended(end));
}

// Logs what was found of the link.
fn log_fact<G: Sink>(log: &mut G, fact: LinkFact)
    ensures { Logs (fact_line fact) (G.written log.old) (G.written log.new)
        (G.faults log.old) (G.faults log.new) }
{
    if let LinkFact::Ended(end) = fact {
        log_end(log, end);
    }
}

// Logs a note.
pub(crate) fn log_note<G: Sink>(log: &mut G, note: &Note)
    ensures { Logs (note_lines note.now) (G.written log.old) (G.written log.new)
        (G.faults log.old) (G.faults log.new) }
{
    log_issued(log, note.issued.as_slice());
    log_fact(log, note.fact);
}

// Whether a print is paused after what was found of the link.
pub(crate) fn note_paused(fact: LinkFact, paused: bool) -> bool
    ensures { result ≡ note_paused fact paused }
{
    match fact {
        LinkFact::Quiet => paused,
        _ => false,
    }
}
