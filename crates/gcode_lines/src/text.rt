//! The text of one line: what is before a `;` comment or a `*` checksum, without a UTF-8 byte order mark in front, without
//! blanks at both ends and without the line number `N..` that hosts put in front, as in the G-code that Marlin reads. A text
//! with `M110` is passed over, since Marlin would take a new line number from it.
//!
//! Source: Marlin's queue.cpp for line numbers, checksums and `M110`; `MAX_CMD_SIZE`, 96, for the longest command.
ghost use Rattle.std.specs.Prelude.{◌≡◌, ◌+◌, ◌≤◌, ◌||◌, false, fold, length};
ghost use Rattle.std.specs.Bool.{OnTrue};
ghost use Rattle.std.specs.List.{before_first, position_or_len, prefix_len, suffix_len};
ghost use Rattle.byte_text.specs.declared.texts.TheConstants.{MOST_TEXT_BYTES};
ghost use Rattle.gcode_lines.specs.Text.{is_mark, is_blank, is_control, is_numbered, is_skipped, is_too_long, is_odd, has_control, trimmed, without_number, has_order_mark, order_mark_len, without_order_mark, command_text, begin_of};

use crate::line::Line;
use byte_text::{MOST_TEXT_BYTES, digits_in_front, has_m110, is_space, spaces_in_front};

// A byte that begins a comment or a checksum.
pub(crate) fn is_mark(byte: u8) -> bool
    ensures { result ≡ is_mark byte }
{
    byte == b';' || byte == b'*'
}

// A space, a tab or a carriage return.
fn is_blank(byte: u8) -> bool
    ensures { result ≡ is_blank byte }
{
    is_space(byte) || byte == b'\r'
}

// A byte that no command may hold: a control byte other than tab.
fn is_control(byte: u8) -> bool
    ensures { result ≡ is_control byte }
{
    byte < 32 && byte != b'\t' || byte == 127
}

// Where a comment or a checksum begins, or the length.
fn mark_place(line: &[u8]) -> usize
    ensures { result ≡ position_or_len is_mark line.now }
{
    line.iter().take_while(|byte| !is_mark(**byte)).count()
}

// How many blanks are at the front.
fn blanks_in_front(bytes: &[u8]) -> usize
    ensures value { result ≡ prefix_len is_blank bytes.now }
    ensures fits { result ≤ length bytes.now }
{
    bytes.iter().take_while(|byte| is_blank(**byte)).count()
}

// How many blanks are at the end.
fn blanks_at_end(bytes: &[u8]) -> usize
    ensures value { result ≡ suffix_len is_blank bytes.now }
    ensures fits { result ≤ length bytes.now }
{
    bytes
        .iter()
        .rev()
        .take_while(|byte| is_blank(**byte))
        .count()
}

// What is before a comment or a checksum.
fn before_mark(line: &[u8]) -> &[u8]
    ensures { result.now ≡ before_first is_mark line.now }
{
    &line[..mark_place(line)]
}

// A text without blanks at both ends.
#[tactic(auto, unfolding(crate::specs::Text::trimmed, crate::specs::Text::without_front, crate::specs::Text::without_end))]
fn trimmed(bytes: &[u8]) -> &[u8]
    ensures { result.now ≡ trimmed bytes.now }
{
    let bytes = &bytes[blanks_in_front(bytes)..];
    &bytes[..bytes.len() - blanks_at_end(bytes)]
}

/// Whether a text begins with a line number.
#[tactic(auto, unfolding(crate::specs::Text::is_numbered))]
pub fn is_numbered(text: &[u8]) -> bool
    ensures value { result ≡ is_numbered text.now }
    ensures long { OnTrue result (2 ≤ length text.now) }
{
    text.len() > 1 && text[0] == b'N' && text[1].is_ascii_digit()
}

/// Whether a UTF-8 byte order mark is at the front. Files that were joined have one in their middle too.
#[tactic(auto, unfolding(crate::specs::Text::has_order_mark))]
pub fn has_order_mark(line: &[u8]) -> bool
    ensures { result ≡ has_order_mark line.now }
{
    line.starts_with(b"\xEF\xBB\xBF")
}

// How many bytes of a line it has.
#[tactic(auto, using(crate::proofs::TextCut::order_mark_long), unfolding(crate::specs::Text::order_mark_len))]
fn order_mark_len(line: &[u8]) -> usize
    ensures value { result ≡ order_mark_len line.now }
    ensures fits { result ≤ length line.now }
{
    if has_order_mark(line) { 3 } else { 0 }
}

// A line without a byte order mark at its front.
#[tactic(auto, unfolding(crate::specs::Text::without_order_mark))]
fn without_order_mark(line: &[u8]) -> &[u8]
    ensures value { result.now ≡ without_order_mark line.now }
    ensures fits { order_mark_len line.now + length result.now ≤ length line.now }
{
    &line[order_mark_len(line)..]
}

// A text without its line number, `N` and digits, and the spaces and tabs after it.
#[tactic(auto, unfolding(crate::specs::Text::without_number, crate::specs::Text::without_front))]
fn without_number(text: &[u8]) -> &[u8]
    ensures value { result.now ≡ without_number text.now }
    ensures fits { length result.now ≤ length text.now }
{
    if !is_numbered(text) {
        return text;
    }
    let text = &text[1..];
    let text = &text[digits_in_front(text)..];
    &text[spaces_in_front(text)..]
}

// A text, and where it begins in its line.
#[derive(Clone, Copy)]
pub(crate) struct TextAt<'a> {
    pub(crate) begin: usize,
    pub(crate) text: &'a [u8],
}

// The text of a line's command: without byte order mark, blanks at both ends and line number.
#[tactic(auto, unfolding(crate::specs::Text::command_text, crate::specs::Text::command_part, crate::specs::Text::begin_of, crate::specs::Text::number_len))]
pub(crate) fn text_in(line: Line<'_>) -> TextAt<'_>
    ensures text { result.text.now ≡ command_text line.entry.bytes.now }
    ensures begin { result.begin ≡ begin_of line.entry.bytes.now }
    ensures fits { result.begin + length result.text.now ≤ length line.entry.bytes.now }
{
    let mark = order_mark_len(line.command);
    let command = without_order_mark(line.command);
    let trimmed = trimmed(command);
    let text = without_number(trimmed);
    TextAt {
        begin: mark + (blanks_in_front(command) + (trimmed.len() - text.len())),
        text,
    }
}

// The text of a line's command: without byte order mark, comment, checksum, blanks and line number.
pub(crate) fn command_text(line: &[u8]) -> &[u8]
    ensures { result.now ≡ command_text line.now }
{
    let line = Line {
        bytes: line,
        command: before_mark(line),
    };
    text_in(line).text
}

// A byte that no plain text has.
fn is_odd(byte: u8) -> bool
    ensures { result ≡ is_odd byte }
{
    byte == b'M' || is_control(byte)
}

// Whether a byte of a text is odd. It has no early return, so that the compiler can test several bytes with one instruction.
fn has_odd(text: &[u8]) -> bool
    ensures { result ≡ fold (λ odd byte. odd || is_odd byte) false text.now }
{
    text.iter().fold(false, |odd, byte| odd || is_odd(*byte))
}

// Whether a text has as many bytes as a command may.
fn has_fit_length(text: &[u8]) -> bool
    ensures some { OnTrue result (1 ≤ length text.now) }
    ensures short { OnTrue result (length text.now ≤ MOST_TEXT_BYTES) }
{
    !text.is_empty() && text.len() <= MOST_TEXT_BYTES
}

// Whether a text is a command by its length and its bytes alone, as most are. That saves the tests that follow.
pub(crate) fn is_plain(text: &[u8]) -> bool
    ensures kept { OnTrue result (is_skipped text.now ≡ false) }
    ensures short { OnTrue result (is_too_long text.now ≡ false) }
    ensures sound { OnTrue result (has_control text.now ≡ false) }
{
    has_fit_length(text) && !has_odd(text)
}

// Whether a text holds a byte that no command may hold.
#[tactic(auto, unfolding(crate::specs::Text::has_control))]
pub(crate) fn has_control(text: &[u8]) -> bool
    ensures { result ≡ has_control text.now }
{
    text.iter().any(|byte| is_control(*byte))
}

// Whether a text is passed over: it is empty or would set the printer's line number.
#[tactic(auto, unfolding(crate::specs::Text::is_skipped))]
pub(crate) fn is_skipped(text: &[u8]) -> bool
    ensures { result ≡ is_skipped text.now }
{
    text.is_empty() || has_m110(text)
}

// Whether a text is too long to be sent in one line.
#[tactic(auto, unfolding(crate::specs::Text::is_too_long))]
pub(crate) fn is_too_long(text: &[u8]) -> bool
    ensures { result ≡ is_too_long text.now }
{
    text.len() > MOST_TEXT_BYTES
}
