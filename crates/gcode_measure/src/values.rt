//! The values of a command for the axes.
ghost use Rattle.std.specs.Prelude.{◌≡◌, ◌||◌};
ghost use Rattle.gcode_words.specs.Words.{words_of};
ghost use Rattle.gcode_measure.specs.Values.{is_named, names_none, numbers_of, no_values, with_numbers, end_value, values_by};

use crate::kind::Kind;
use gcode_words::{CodeWord, words};

// An axis of the printer.
#[derive(Clone, Copy, Debug, PartialEq, Eq)]
pub(crate) enum Axis {
    X,
    Y,
    Z,
    E,
}

// A value for each axis that gets one, in millionths of a millimetre.
#[derive(Clone, Copy)]
pub(crate) struct Values {
    pub(crate) x: Option<i64>,
    pub(crate) y: Option<i64>,
    pub(crate) z: Option<i64>,
    pub(crate) e: Option<i64>,
}

impl Values {
    ghost use Rattle.std.specs.Prelude.{[], ◌∷◌};

    // No axis gets a value.
    fn none() -> Self
        ensures { result ≡ no_values }
    {
        Values {
            x: None,
            y: None,
            z: None,
            e: None,
        }
    }

    // Takes in one more argument; the first number of an axis counts.
    fn take(&mut self, word: CodeWord)
        ensures { self.new ≡ with_numbers self.old (word ∷ []) }
    {
        match word.letter {
            b'X' => self.x = self.x.or(word.micro),
            b'Y' => self.y = self.y.or(word.micro),
            b'Z' => self.z = self.z.or(word.micro),
            b'E' => self.e = self.e.or(word.micro),
            _ => {}
        }
    }
}

// The first number of each axis.
#[tactic(auto, using(crate::proofs::ValueLaws::number_steps))]
fn read_numbers(text: &[u8]) -> Values
    ensures { result ≡ numbers_of (words_of text.now) }
{
    let mut values = Values::none();
    for word in words(text) {
        values.take(word);
    }
    values
}

// Whether a letter is among the arguments, with or without a number.
fn names(text: &[u8], letter: u8) -> bool
    ensures { result ≡ is_named letter (words_of text.now) }
{
    for word in words(text) {
        if word.letter == letter {
            return true;
        }
    }
    false
}

// Whether none of X, Y and Z is among the arguments.
fn names_none(text: &[u8]) -> bool
    ensures { result ≡ names_none (words_of text.now) }
{
    !names(text, b'X') && !names(text, b'Y') && !names(text, b'Z')
}

// 0 for an axis that goes to its end: a named one, or each if none is named.
fn end_value(named: bool, none: bool) -> Option<i64>
    ensures { result ≡ end_value (named || none) }
{
    if named || none { Some(0) } else { None }
}

// The values of `G28`: 0 for the named ones of X, Y and Z, for all three if none is named.
fn read_homed(text: &[u8]) -> Values
    ensures { result ≡ values_by Kind.Home (words_of text.now) }
{
    let none = names_none(text);
    Values {
        x: end_value(names(text, b'X'), none),
        y: end_value(names(text, b'Y'), none),
        z: end_value(names(text, b'Z'), none),
        e: None,
    }
}

// The values of a command for the axes.
pub(crate) fn read_values(kind: Kind, text: &[u8]) -> Values
    ensures { result ≡ values_by kind (words_of text.now) }
{
    match kind {
        Kind::Move | Kind::SetPosition => read_numbers(text),
        Kind::Home => read_homed(text),
        _ => Values::none(),
    }
}
