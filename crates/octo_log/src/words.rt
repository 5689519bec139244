//! The words of the events.
ghost use Rattle.std.specs.Prelude.{◌≡◌, ◌<◌, ◌≤◌, ◌+◌, ◌++◌, length, decimal};
ghost use Rattle.arrayvec.specs.ArrayVec.{array_vec_len};
ghost use Rattle.octo_log.specs.Lines.{line_of, outcome_words, time_words, end_words, begin_words, file_words, serving_words, stopped_words};
ghost use Rattle.octo_log.specs.Logged.{Logs};
ghost use Rattle.octo_log.specs.declared.line.TheConstants.{MOST_LOG_BYTES};

use crate::line::{LogLine, log_line};
use arrayvec::ArrayVec;
use byte_text::{Name, append, append_decimal, append_number, bounded_text};
use octo_outside::Sink;
use print_queue::{Ending, Outcome, PrintRow};

// A time in words, of at most 29 bytes.
type TimeText = ArrayVec<u8, 32>;

// What became of a print that ended.
fn outcome_words(outcome: Outcome) -> &'static [u8]
    ensures words { result.now ≡ outcome_words outcome }
    ensures short { length result.now ≤ 20 }
{
    match outcome {
        Outcome::Active => b"active",
        Outcome::Done => b"done",
        Outcome::Cancelled => b"cancelled",
        Outcome::Failed => b"failed",
    }
}

// Adds a number in decimal.
fn append_seconds(words: &mut TimeText, number: u64)
    requires { array_vec_len words.old ≤ 7 }
    ensures items { words.new.items ≡ words.old.items ++ decimal number }
    ensures few { array_vec_len words.new ≤ array_vec_len words.old + 20 }
{
    append_decimal(words, number);
}

// How long a print took, in seconds, if it is known when it began.
fn time_words(began: Option<u64>, moment: u64) -> TimeText
    ensures { result.items ≡ time_words began moment }
{
    match began {
        Some(began) => {
            let mut words = bounded_text(b" after ");
            append_seconds(&mut words, moment.saturating_sub(began) / 1000);
            append(&mut words, b" s");
            words
        }
        None => TimeText::new(),
    }
}

// A print that ended.
pub(crate) fn end_words(began: Option<u64>, moment: u64, ending: Ending) -> LogLine
    ensures words { result.items ≡ end_words began moment ending }
    ensures short { length result.items < MOST_LOG_BYTES }
{
    let mut words = bounded_text(b"print ");
    append_number(&mut words, ending.print);
    append(&mut words, b": ");
    append(&mut words, outcome_words(ending.outcome));
    append(&mut words, time_words(began, moment).as_slice());
    words
}

// A print that began.
pub(crate) fn begin_words(row: &PrintRow) -> LogLine
    ensures words { result.items ≡ begin_words row.now }
    ensures short { length result.items < MOST_LOG_BYTES }
{
    let mut words = bounded_text(b"print ");
    append_number(&mut words, row.number);
    append(&mut words, b": begun, ");
    append(&mut words, row.file.as_bytes());
    append(&mut words, b", ");
    append_number(&mut words, row.commands);
    append(&mut words, b" commands, for ");
    append(&mut words, row.user.as_bytes());
    words
}

// A file, with what came of a call.
pub(crate) fn file_words(name: &Name, what: &[u8]) -> LogLine
    requires { length what.now ≤ 100 }
    ensures words { result.items ≡ file_words name.now what.now }
    ensures short { length result.items < MOST_LOG_BYTES }
{
    let mut words = bounded_text(b"file ");
    append(&mut words, name.as_bytes());
    append(&mut words, what);
    words
}

/// Logs that a host serves at this address.
pub fn log_serving<G: Sink>(log: &mut G, address: &Name)
    ensures { Logs (line_of (serving_words address.now)) (G.written log.old) (G.written log.new)
        (G.faults log.old) (G.faults log.new) }
{
    let mut words: LogLine = bounded_text(b"serving at http://");
    append(&mut words, address.as_bytes());
    log_line(log, words.as_slice());
}

/// Logs that a host has ended.
pub fn log_stopped<G: Sink>(log: &mut G)
    ensures { Logs (line_of stopped_words) (G.written log.old) (G.written log.new)
        (G.faults log.old) (G.faults log.new) }
{
    log_line(log, b"stopped");
}
