//! Temperatures as they are known and shown.
ghost use Rattle.std.specs.Prelude.{◌≡◌, option_map};
ghost use Rattle.octo_asks.specs.Shown.{shown_heat};
ghost use Rattle.octo_house_rules.specs.Noted.{forgets, kept_unless, with_temps};

use job_desk::{LinkFact, Note};
use marlin_reply::{Heat, Temps};
use octo_asks::ShownHeat;

/// A heater as it is shown.
pub fn shown_heat(heat: Option<Heat>) -> Option<ShownHeat>
    ensures { result ≡ option_map shown_heat heat }
{
    match heat {
        Some(heat) => Some(ShownHeat::of(&heat)),
        None => None,
    }
}

// Whether a fact forgets the temperatures: the session began or is over.
fn forgets(fact: &LinkFact) -> bool
    ensures { result ≡ forgets fact.now }
{
    match fact {
        LinkFact::Quiet | LinkFact::Ready => false,
        LinkFact::Opened
        | LinkFact::Closed
        | LinkFact::NoPort
        | LinkFact::Failed
        | LinkFact::Ended(_) => true,
    }
}

// The temperatures with those that were reported.
fn with_temps(told: &Option<Temps>, kept: Temps) -> Temps
    ensures { result ≡ with_temps told.now kept }
{
    match told {
        Some(told) => Temps {
            tool: told.tool.or(kept.tool),
            bed: told.bed.or(kept.bed),
        },
        None => kept,
    }
}

/// The temperatures that are known after a note.
pub fn temps_after(note: &Note, kept: Temps) -> Temps
    ensures { result ≡ kept_unless (forgets note.now.fact) (with_temps note.now.temps kept) }
{
    if forgets(&note.fact) {
        return Temps {
            tool: None,
            bed: None,
        };
    }
    with_temps(&note.temps, kept)
}
