//! How progress is shown.
ghost use Rattle.std.specs.Prelude.{◌≡◌, ◌<◌, ◌≤◌, ◌+◌, length};
ghost use Rattle.octo_log.specs.Lines.{line_of, shown_byte};
ghost use Rattle.octo_log.specs.Logged.{Logs};
ghost use Rattle.octo_log.specs.declared.line.TheConstants.{MOST_LOG_BYTES};
ghost use Rattle.octo_log_link.specs.Progress.{end_text, in_place, is_due, shown_as};

use crate::progress::Showing;
use arrayvec::ArrayVec;
use byte_text::append;
use octo_log::{MOST_LOG_BYTES, log_line};
use octo_outside::{Sink, write_all};

// The words of a line that is shown.
pub(crate) type Words = ArrayVec<u8, MOST_LOG_BYTES>;

// Words with what puts them in place.
type Placed = ArrayVec<u8, 520>;

// A byte as it is shown: a control byte is a question mark.
fn shown_byte(byte: u8) -> u8
    ensures { result ≡ shown_byte byte }
{
    if byte < 32 || byte == 127 { b'?' } else { byte }
}

// The words over what the line of a terminal has: back to its beginning, and the rest of the line erased. What doesn't fit in the line
// isn't wrapped, since `\r` would then go back to the last row only.
//
// Source: DEC VT100, autowrap mode (DECAWM), erase in line (EL).
fn in_place(words: &[u8]) -> Placed
    requires { length words.now < MOST_LOG_BYTES }
    ensures items { result.items ≡ in_place words.now }
    ensures short { length result.items ≤ length words.now + 14 }
{
    let mut placed = Placed::new();
    append(&mut placed, b"\r\x1b[?7l");
    for byte in words {
        append(&mut placed, &[shown_byte(*byte)]);
    }
    append(&mut placed, b"\x1b[K\x1b[?7h");
    placed
}

// Writes these bytes to a log, as far as it takes them.
fn log_bytes<G: Sink>(log: &mut G, bytes: &[u8])
    ensures { Logs bytes.now (G.written log.old) (G.written log.new)
        (G.faults log.old) (G.faults log.new) }
{
    let _ = write_all(log, bytes);
}

// Whether progress is shown now.
pub(crate) fn is_due(showing: Showing, shown: u64, moment: u64, tenth: u64) -> bool
    ensures { result ≡ is_due showing shown moment tenth }
{
    match showing {
        Showing::Off => false,
        Showing::InPlace => moment >= shown.saturating_add(1000),
        Showing::Tenths => tenth > shown,
    }
}

// Shows these words.
pub(crate) fn show<G: Sink>(log: &mut G, showing: Showing, words: &[u8])
    requires { length words.now < MOST_LOG_BYTES }
    ensures { Logs (shown_as showing words.now) (G.written log.old) (G.written log.new)
        (G.faults log.old) (G.faults log.new) }
{
    match showing {
        Showing::Off => {}
        Showing::InPlace => log_bytes(log, in_place(words).as_slice()),
        Showing::Tenths => log_line(log, words),
    }
}

// Shows the last words.
pub(crate) fn show_end<G: Sink>(log: &mut G, showing: Showing, words: &[u8])
    requires { length words.now < MOST_LOG_BYTES }
    ensures { Logs (end_text showing words.now) (G.written log.old) (G.written log.new)
        (G.faults log.old) (G.faults log.new) }
{
    if showing == Showing::InPlace {
        let mut placed = in_place(words);
        append(&mut placed, b"\n");
        log_bytes(log, placed.as_slice());
    }
}
