//! The numbers that a demo draws from its seed.
ghost use Rattle.std.specs.Prelude.{◌≡◌, ◌<◌, ℕ};
ghost use Rattle.octo_commands_print.specs.Draws.{next_draw, upper_bits};

use std::marker::Model;

/// The numbers that a demo draws: a linear congruential generator of 31 bits, seen as its number. Source: the example of
/// `rand` in the C standard, ISO C 7.22.2.
#[derive(Drop)]
pub struct Draws {
    number: u32,
}

impl Model for Draws {
    ghost use Rattle.std.specs.Prelude.{ℕ};

    ghost Value = { ℕ };

    ghost view = { λ d. d.number };
}

impl Draws {
    /// The draws from a seed.
    pub fn new(seed: u32) -> Draws
        ensures { result ≡ seed }
    {
        Draws { number: seed }
    }

    /// The next draw, below 32,768.
    #[tactic(auto, unfolding(crate::specs::Draws::next_draw))]
    pub fn draw(&mut self) -> u32
        ensures number { self.new ≡ next_draw self.old }
        ensures value { result ≡ upper_bits self.new }
    {
        let number = (1_103_515_245 * u64::from(self.number) + 12_345) % 2_147_483_648;
        self.number = number as u32;
        self.number / 65_536
    }
}
