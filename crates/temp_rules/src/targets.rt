//! The greatest temperatures that commands ask for.
ghost use Rattle.std.specs.Prelude.{◌≡◌};
ghost use Rattle.temp_rules.specs.Asked.{asked_of};
ghost use Rattle.temp_rules.specs.Most.{most_degrees, no_targets, with_text};

use super::asked::{may_ask, read_asking, round_up};
use super::heater::Heater;
use gcode_words::words;
use std::marker::Model;

/// The greatest values that commands asked of tool and bed so far, in whole degrees, rounded up.
#[derive(Drop)]
pub struct Targets {
    tool: u64,
    bed: u64,
}

impl Model for Targets {
    ghost use Rattle.temp_rules.specs.Most.{TargetsData};

    ghost Value = { TargetsData };

    ghost view = { λ t. record { tool = t.tool; bed = t.bed } };
}

impl Targets {
    /// No command was seen yet.
    pub fn new() -> Self
        ensures { result ≡ no_targets }
    {
        Targets { tool: 0, bed: 0 }
    }

    /// Takes in what a command asks for.
    pub fn see(&mut self, text: &[u8])
        ensures { self.new ≡ with_text self.old text.now }
    {
        if !may_ask(text) {
            return;
        }
        self.tool = self.tool.max(most_asked(text, Heater::Tool));
        self.bed = self.bed.max(most_asked(text, Heater::Bed));
    }

    /// The greatest value asked of the tool, 0 if none is above 0.
    pub fn tool(&self) -> u64
        ensures { result ≡ self.now.tool }
    {
        self.tool
    }

    /// The greatest value asked of the bed, 0 if none is above 0.
    pub fn bed(&self) -> u64
        ensures { result ≡ self.now.bed }
    {
        self.bed
    }
}

// The greatest value that a command asks of a heater.
#[tactic(auto, unfolding(crate::specs::Asked::asked_of))]
fn most_asked(text: &[u8], heater: Heater) -> u64
    ensures { result ≡ most_degrees (asked_of heater text.now) }
{
    let Some(asking) = read_asking(text, heater) else {
        return 0;
    };
    let mut most = 0;
    for word in words(text) {
        if let Some(micro) = asking.value(word) {
            most = most.max(round_up(micro));
        }
    }
    most
}
