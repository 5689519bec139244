//! The texts of states, outcomes and permissions.
ghost use Rattle.std.specs.Prelude.{◌≡◌};
ghost use Rattle.octo_api_replies.specs.Texts.{state_text, outcome_text, permission_text};

use job_desk::State;
use octo_access::Permission;
use print_queue::Outcome;

// The name of a keeper's failure, as a refusal and as the cause of an upload that wasn't started.
pub(crate) const KEEPER_FAULT: &str = "KeeperFault";

// A state's text.
pub(crate) fn state_text(state: State) -> &'static str
    ensures { result.now ≡ state_text state }
{
    match state {
        State::Offline => "Offline",
        State::Connecting => "Connecting",
        State::Operational => "Operational",
        State::Printing => "Printing",
        State::Pausing => "Pausing",
        State::Paused => "Paused",
        State::Cancelling => "Cancelling",
        State::Finishing => "Finishing",
        State::Closing => "Closing",
        State::Fault => "Error",
    }
}

// An outcome's text.
pub(crate) fn outcome_text(outcome: Outcome) -> &'static str
    ensures { result.now ≡ outcome_text outcome }
{
    match outcome {
        Outcome::Active => "Active",
        Outcome::Done => "Done",
        Outcome::Cancelled => "Cancelled",
        Outcome::Failed => "Failed",
    }
}

// The permission that a caller lacks, `KEY` if the key names nobody.
pub(crate) fn permission_text(permission: Option<Permission>) -> &'static str
    ensures { result.now ≡ permission_text permission }
{
    match permission {
        Some(permission) => permission.name(),
        None => "KEY",
    }
}
