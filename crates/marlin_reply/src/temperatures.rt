//! The temperatures that a line reports.
ghost use Rattle.std.specs.Prelude.{◌≡◌};
ghost use Rattle.marlin_reply.specs.Temperatures.{target_at, heat_at, heat_of, temps_of};

use super::pieces::{PieceStarts, skip_only_spaces};
use super::{Heat, Temps};
use gcode_words::read_number;

// The temperatures of a line; None if no heater is reported whole.
#[tactic(auto, unfolding(crate::specs::Temperatures::temps_of))]
pub(crate) fn read_temps(text: &[u8]) -> Option<Temps>
    ensures { result ≡ temps_of text.now }
{
    let tool = find_heat(text, b"T:");
    let bed = find_heat(text, b"B:");
    if tool.is_none() && bed.is_none() {
        return None;
    }
    Some(Temps { tool, bed })
}

// The temperatures after the first piece that begins with a heater's mark.
#[tactic(auto, unfolding(crate::specs::Temperatures::heat_of))]
fn find_heat(text: &[u8], mark: &[u8]) -> Option<Heat>
    ensures { result ≡ heat_of mark.now text.now }
{
    for start in PieceStarts::new(text) {
        if let Some(after) = start.strip_prefix(mark) {
            return read_heat(after);
        }
    }
    None
}

// A temperature at the front, spaces or none, a slash and the target.
#[tactic(auto, unfolding(crate::specs::Temperatures::heat_at))]
fn read_heat(text: &[u8]) -> Option<Heat>
    ensures { result ≡ heat_at text.now }
{
    let actual = read_number(text)?;
    read_target(actual.micro, skip_only_spaces(actual.rest))
}

#[tactic(auto, unfolding(crate::specs::Temperatures::target_at))]
fn read_target(actual: i64, text: &[u8]) -> Option<Heat>
    ensures { result ≡ target_at actual text.now }
{
    match text {
        [b'/', after @ ..] => {
            let target = read_number(after)?;
            Some(Heat {
                actual,
                target: target.micro,
            })
        }
        _ => None,
    }
}
