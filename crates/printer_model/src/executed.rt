//! A line that the printer ran.
use byte_text::Line;
use std::marker::Model;

/// A line that the printer ran, with its number if it had one.
#[derive(Drop)]
pub struct ExecutedLine {
    pub number: Option<u32>,
    pub text: Line,
}

impl Model for ExecutedLine {
    ghost use Rattle.printer_model.specs.Printer.{Logged};

    ghost Value = { Logged };

    ghost view = { λ l. record { number = l.number; text = l.text.items } };
}
