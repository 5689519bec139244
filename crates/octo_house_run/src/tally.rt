//! What a run counts of its history.
ghost use Rattle.std.specs.Prelude.{◌≡◌, ◌+◌};
ghost use Rattle.octo_house_run.specs.Tallies.{counted, no_tally, tally_after};
ghost use Rattle.octo_house_run_proof.specs.Rounds.{one_if};

// What an answered ask was.
#[derive(Clone, Copy, Debug, PartialEq, Eq)]
pub(crate) struct Asked {
    // Whether a worker left with it.
    pub is_leave: bool,
    // Whether it counts as a call.
    pub is_counted: bool,
    // Whether it was a shutdown that was accepted.
    pub is_shutdown: bool,
}

// The numbers of a history, and whether a shutdown was accepted in it.
#[derive(Clone, Copy, Debug, PartialEq, Eq)]
pub(crate) struct Tally {
    // Calls other than those with which a worker leaves and the host's own.
    pub calls: u64,
    // Those with which a worker leaves.
    pub leaves: u64,
    pub is_shut: bool,
}

// The tally of an empty history.
pub(crate) fn no_tally() -> Tally
    ensures { result ≡ no_tally }
{
    Tally {
        calls: 0,
        leaves: 0,
        is_shut: false,
    }
}

// A number, and one more if that is so. It stays at its type's greatest value.
fn with_one(number: u64, more: bool) -> u64
    ensures { result ≡ counted (number + one_if more) }
{
    if more {
        return number.saturating_add(1);
    }
    number
}

// The tally after an answered ask, or after none.
pub(crate) fn tally_after(asked: Option<Asked>, tally: Tally) -> Tally
    ensures { result ≡ tally_after asked tally }
{
    let Some(asked) = asked else {
        return tally;
    };
    Tally {
        calls: with_one(tally.calls, asked.is_counted),
        leaves: with_one(tally.leaves, asked.is_leave),
        is_shut: tally.is_shut || asked.is_shutdown,
    }
}
