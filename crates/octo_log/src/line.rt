//! Lines of a log.
ghost use Rattle.std.specs.Prelude.{◌≡◌, ◌<◌, ◌≤◌, ◌+◌, ◌++◌, ◌∷◌, [], map, take, length};
ghost use Rattle.arrayvec.specs.ArrayVec.{array_vec_len};
ghost use Rattle.octo_log.specs.Lines.{line_of, shown_byte};
ghost use Rattle.octo_log.specs.Logged.{Logs};

use arrayvec::ArrayVec;
use byte_text::append;
use octo_outside::{Sink, write_all};

/// The most bytes of a line of a log, with its line feed.
pub const MOST_LOG_BYTES: usize = 500;

// A line of a log, or the words of one.
pub(crate) type LogLine = ArrayVec<u8, MOST_LOG_BYTES>;

// A byte as a log shows it.
fn shown_byte(byte: u8) -> u8
    ensures { result ≡ shown_byte byte }
{
    if byte < 32 || byte == 127 { b'?' } else { byte }
}

// The words as one line: no control byte is in it but the line feed at its end.
fn line_of(words: &[u8]) -> LogLine
    requires { length words.now < MOST_LOG_BYTES }
    ensures { result.items ≡ line_of words.now }
{
    let mut line = LogLine::new();
    for byte in words {
        append(&mut line, &[shown_byte(*byte)]);
    }
    append(&mut line, b"\n");
    line
}

/// Writes words as one line to a log. If the log fails, the rest of the line is lost, and nothing else changes.
pub fn log_line<G: Sink>(log: &mut G, words: &[u8])
    requires { length words.now < MOST_LOG_BYTES }
    ensures { Logs (line_of words.now) (G.written log.old) (G.written log.new)
        (G.faults log.old) (G.faults log.new) }
{
    let line = line_of(words);
    let _ = write_all(log, line.as_slice());
}
