//! The pieces of a line, between its spaces, and the number fields among them.
ghost use Rattle.std.specs.Prelude.{◌≡◌, ◌≤◌, ◌==◌, not, length};
ghost use Rattle.std.specs.Option.{option_copied};
ghost use Rattle.std.specs.List.{prefix_len, suffix_len};
ghost use Rattle.std.specs.Iterator.{YieldsFirstRef, item_count};
ghost use Rattle.marlin_reply.specs.Pieces.{is_line_end, without_front, without_end, trimmed, after_spaces, starts_after, piece_starts, front_piece, small_number, whole_number, field_at, field_of, starts_left};

use byte_text::{are_digits, spaces_in_front};
use gcode_words::decimal_up_to;

// A line without spaces and tabs at both ends, and without carriage returns at its end.
#[tactic(auto, unfolding(crate::specs::Pieces::trimmed))]
pub(crate) fn trim_line(line: &[u8]) -> &[u8]
    ensures { result.now ≡ trimmed line.now }
{
    trim_end(trim_front(line))
}

#[tactic(auto, unfolding(crate::specs::Pieces::without_front))]
fn trim_front(bytes: &[u8]) -> &[u8]
    ensures { result.now ≡ without_front bytes.now }
{
    &bytes[spaces_in_front(bytes)..]
}

#[tactic(auto, unfolding(crate::specs::Pieces::without_end))]
fn trim_end(bytes: &[u8]) -> &[u8]
    ensures { result.now ≡ without_end bytes.now }
{
    let ends = count_line_ends(bytes);
    &bytes[..bytes.len() - ends]
}

fn count_line_ends(bytes: &[u8]) -> usize
    ensures value { result ≡ suffix_len is_line_end bytes.now }
    ensures bound { result ≤ length bytes.now }
{
    bytes
        .iter()
        .rev()
        .take_while(|byte| matches!(**byte, b' ' | b'\t' | b'\r'))
        .count()
}

// A text without the spaces at its front; a tab isn't one here.
#[tactic(auto, unfolding(crate::specs::Pieces::after_spaces))]
pub(crate) fn skip_only_spaces(bytes: &[u8]) -> &[u8]
    ensures { result.now ≡ after_spaces bytes.now }
{
    let spaces = count_only_spaces(bytes);
    &bytes[spaces..]
}

fn count_only_spaces(bytes: &[u8]) -> usize
    ensures value { result ≡ prefix_len (λ byte. byte == 32) bytes.now }
    ensures bound { result ≤ length bytes.now }
{
    bytes.iter().take_while(|byte| **byte == b' ').count()
}

fn count_piece(bytes: &[u8]) -> usize
    ensures value { result ≡ prefix_len (λ byte. not (byte == 32)) bytes.now }
    ensures bound { result ≤ length bytes.now }
{
    bytes.iter().take_while(|byte| **byte != b' ').count()
}

// The piece at the front.
#[tactic(auto, unfolding(crate::specs::Pieces::front_piece))]
fn first_piece(bytes: &[u8]) -> &[u8]
    ensures { result.now ≡ front_piece bytes.now }
{
    let count = count_piece(bytes);
    &bytes[..count]
}

// The number that digits write, if it fits 32 bits.
#[tactic(auto, unfolding(crate::specs::Pieces::small_number))]
pub(crate) fn read_small(digits: &[u8]) -> Option<u32>
    ensures { result ≡ small_number digits.now }
{
    let value = decimal_up_to(digits, 1 << 32);
    u32::try_from(value).ok()
}

// The number that a text of digits alone writes.
#[tactic(auto, unfolding(crate::specs::Pieces::whole_number))]
fn read_whole(text: &[u8]) -> Option<u32>
    ensures { result ≡ whole_number text.now }
{
    if text.is_empty() || !are_digits(text) {
        return None;
    }
    read_small(text)
}

// The number of the piece at the front, which is this letter and digits.
#[tactic(auto, unfolding(crate::specs::Pieces::field_at))]
fn read_field(text: &[u8], letter: u8) -> Option<u32>
    ensures { result ≡ field_at letter text.now }
{
    let (first, after) = text.split_first()?;
    if *first != letter {
        return None;
    }
    read_whole(first_piece(after))
}

// The number of the first piece that is this letter and a number.
#[tactic(auto, unfolding(crate::specs::Pieces::field_of))]
pub(crate) fn find_field(text: &[u8], letter: u8) -> Option<u32>
    ensures { result ≡ field_of letter text.now }
{
    for start in PieceStarts::new(text) {
        if let Some(number) = read_field(start, letter) {
            return Some(number);
        }
    }
    None
}

// The text from each of its pieces on.
#[derive(Clone, Copy)]
pub(crate) struct PieceStarts<'a> {
    left: Option<&'a [u8]>,
}

impl<'a> PieceStarts<'a> {
    pub(crate) fn new(text: &'a [u8]) -> Self
        ensures { starts_left (option_copied result.left) ≡ piece_starts text.now }
    {
        PieceStarts { left: Some(text) }
    }
}

impl<'a> Iterator for PieceStarts<'a> {
    type Item = &'a [u8];

    ghost next_gives = { YieldsFirstRef (λ s. starts_left (option_copied s.left)) };

    ghost remaining = { item_count (λ s. starts_left (option_copied s.left)) };

    fn next(&mut self) -> Option<&'a [u8]> {
        let start = self.left?;
        self.left = after_space(start);
        Some(start)
    }
}

// What follows the first space.
fn after_space(text: &[u8]) -> Option<&[u8]>
    ensures { starts_left (option_copied result) ≡ starts_after text.now }
{
    for (place, byte) in text.iter().enumerate() {
        if *byte == b' ' {
            return Some(&text[place + 1..]);
        }
    }
    None
}
