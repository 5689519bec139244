//! What is possible in each state of the desk.
ghost use Rattle.std.specs.Prelude.{◌≡◌};
ghost use Rattle.octo_house_rules.specs.States.{may_select, may_show, may_shut_down};

use job_desk::State;

/// Whether the printer's state may be shown.
pub fn may_show(state: State) -> bool
    ensures { result ≡ may_show state }
{
    match state {
        State::Offline | State::Connecting | State::Closing | State::Fault => false,
        State::Operational
        | State::Printing
        | State::Pausing
        | State::Paused
        | State::Cancelling
        | State::Finishing => true,
    }
}

/// Whether the host may be shut down.
pub fn may_shut_down(state: State) -> bool
    ensures { result ≡ may_shut_down state }
{
    match state {
        State::Offline | State::Operational | State::Fault => true,
        State::Connecting
        | State::Printing
        | State::Pausing
        | State::Paused
        | State::Cancelling
        | State::Finishing
        | State::Closing => false,
    }
}

/// Whether a file may be selected.
pub fn may_select(state: State) -> bool
    ensures { result ≡ may_select state }
{
    match state {
        State::Offline | State::Connecting | State::Operational | State::Fault => true,
        State::Printing
        | State::Pausing
        | State::Paused
        | State::Cancelling
        | State::Finishing
        | State::Closing => false,
    }
}
