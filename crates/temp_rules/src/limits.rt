//! The greatest temperatures that a command may ask for.
ghost use Rattle.std.specs.Prelude.{◌≡◌, MatchResult};
ghost use Rattle.temp_rules.specs.Asked.{asked_of};
ghost use Rattle.temp_rules.specs.Hot.{too_hot, hot_of};

use super::asked::{MILLION, may_ask, read_asking, round_up};
use super::heater::Heater;
use gcode_words::words;
use thiserror::Error;

/// The limits of tool and bed, in whole degrees.
#[derive(Clone, Copy, Debug, PartialEq, Eq)]
pub struct Limits {
    pub tool: u16,
    pub bed: u16,
}

/// A command asks for more than its heater's limit: the first such value, rounded up to whole degrees, and the limit.
#[derive(Clone, Copy, Debug, PartialEq, Eq, Error)]
#[error("too hot: {asked} over {limit}")]
pub struct TooHot {
    pub asked: u64,
    pub limit: u16,
}

/// Refuses a command that asks a heater for more than its limit, as `TooHot` with the first such value.
#[tactic(auto, unfolding(crate::specs::Hot::hot_of))]
pub fn check(text: &[u8], limits: &Limits) -> Result<(), TooHot>
    ensures { MatchResult result
        (λ _. hot_of limits.now text.now ≡ None)
        (λ hot. hot_of limits.now text.now ≡ Some hot) }
{
    if !may_ask(text) {
        return Ok(());
    }
    check_heater(text, Heater::Tool, limits.tool)?;
    check_heater(text, Heater::Bed, limits.bed)
}

#[tactic(auto, unfolding(crate::specs::Asked::asked_of))]
fn check_heater(text: &[u8], heater: Heater, limit: u16) -> Result<(), TooHot>
    ensures { MatchResult result
        (λ _. too_hot limit (asked_of heater text.now) ≡ None)
        (λ hot. too_hot limit (asked_of heater text.now) ≡ Some hot) }
{
    let Some(asking) = read_asking(text, heater) else {
        return Ok(());
    };
    let most = i64::from(limit) * MILLION as i64;
    for word in words(text) {
        if let Some(micro) = asking.value(word) {
            if micro > most {
                return Err(TooHot {
                    asked: round_up(micro),
                    limit,
                });
            }
        }
    }
    Ok(())
}
