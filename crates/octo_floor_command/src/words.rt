//! The words of the events of a floor.
ghost use Rattle.std.specs.Prelude.{◌≡◌, ◌<◌, ◌≤◌, ◌+◌, ◌++◌, length};
ghost use Rattle.arrayvec.specs.ArrayVec.{array_vec_len};
ghost use Rattle.octo_log.specs.declared.line.TheConstants.{MOST_LOG_BYTES};
ghost use Rattle.octo_floor_command.specs.Lines.{began_words, did_words, end_words, entry_words, failed_words, lost_words, passed_words, printer_words, why_words};

use arrayvec::ArrayVec;
use byte_text::{Name, append, append_number, bounded_text};
use job_desk::{LinkFact, SessionEnd};
use octo_log::MOST_LOG_BYTES;
use print_queue::QueueEntry;

// The words of a line.
pub(crate) type Words = ArrayVec<u8, MOST_LOG_BYTES>;

// A printer, by its number and its port.
fn printer_words(printer: u8, port: &Name) -> Words
    ensures words { result.items ≡ printer_words printer port.now }
    ensures short { array_vec_len result ≤ 130 }
{
    let mut words = bounded_text(b"printer ");
    append_number(&mut words, u32::from(printer));
    append(&mut words, b" (");
    append(&mut words, port.as_bytes());
    append(&mut words, b"): ");
    words
}

// A printer that did this.
pub(crate) fn did_words(printer: u8, port: &Name, what: &[u8]) -> Words
    requires { length what.now ≤ 100 }
    ensures words { result.items ≡ did_words printer port.now what.now }
    ensures short { array_vec_len result ≤ 230 }
    ensures fits { length result.items < MOST_LOG_BYTES }
{
    let mut words = printer_words(printer, port);
    append(&mut words, what);
    words
}

// Adds an entry: its name, its user and its file.
fn append_entry(words: &mut Words, entry: &QueueEntry)
    requires { array_vec_len words.old ≤ 150 }
    ensures words { words.new.items ≡ words.old.items ++ entry_words entry.now }
    ensures short { array_vec_len words.new ≤ array_vec_len words.old + 306 }
{
    append(words, entry.name.as_bytes());
    append(words, b" of ");
    append(words, entry.user.as_bytes());
    append(words, b" (");
    append(words, entry.file.as_bytes());
}

// A printer that began a copy of an entry.
pub(crate) fn began_words(printer: u8, port: &Name, entry: &QueueEntry) -> Words
    ensures words { result.items ≡ began_words printer port.now entry.now }
    ensures short { length result.items < MOST_LOG_BYTES }
{
    let mut words = printer_words(printer, port);
    append(&mut words, b"began ");
    append_entry(&mut words, entry);
    append(&mut words, b", copy ");
    append_number(
        &mut words,
        u32::from(entry.copies.saturating_sub(entry.left)) + 1,
    );
    append(&mut words, b" of ");
    append_number(&mut words, u32::from(entry.copies));
    append(&mut words, b")");
    words
}

// An entry that is passed over.
pub(crate) fn passed_words(entry: &QueueEntry) -> Words
    ensures words { result.items ≡ passed_words entry.now }
    ensures short { length result.items < MOST_LOG_BYTES }
{
    let mut words = bounded_text(b"passed over: ");
    append_entry(&mut words, entry);
    append(&mut words, b" can't be printed)");
    words
}

// Why a session ended by its own rules.
fn end_words(end: SessionEnd) -> &'static [u8]
    ensures words { result.now ≡ end_words end }
    ensures short { length result.now ≤ 50 }
{
    match end {
        SessionEnd::NoAnswer { .. } => b"no answer",
        SessionEnd::AskedBack { .. } => b"it asked for a line that it had taken",
        SessionEnd::AskedAhead { .. } => b"it asked for a line ahead",
        SessionEnd::Counts { .. } => b"an ok of another line",
        SessionEnd::Restarted => b"it restarted",
        SessionEnd::LostOk { .. } => b"an ok was lost",
        SessionEnd::NumbersUsed { .. } => b"line numbers used up",
    }
}

// Why a printer is lost, by what a turn found of its link.
fn why_words(fact: LinkFact) -> &'static [u8]
    ensures words { result.now ≡ why_words fact }
    ensures short { length result.now ≤ 50 }
{
    match fact {
        LinkFact::NoPort => b"no such port",
        LinkFact::Failed => b"link failed",
        LinkFact::Ended(end) => end_words(end),
        _ => b"disconnected",
    }
}

// A printer that is lost, if it has no print.
pub(crate) fn lost_words(printer: u8, port: &Name, fact: LinkFact) -> Words
    ensures words { result.items ≡ lost_words printer port.now fact }
    ensures short { length result.items < MOST_LOG_BYTES }
{
    let mut words = did_words(printer, port, b"lost: ");
    append(&mut words, why_words(fact));
    words
}

// A print that failed.
pub(crate) fn failed_words(printer: u8, port: &Name, fact: LinkFact) -> Words
    ensures words { result.items ≡ failed_words printer port.now fact }
    ensures short { length result.items < MOST_LOG_BYTES }
{
    let mut words = did_words(printer, port, b"failed: ");
    append(&mut words, why_words(fact));
    words
}
