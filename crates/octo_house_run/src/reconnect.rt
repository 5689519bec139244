//! When a host connects by itself.
ghost use Rattle.std.specs.Prelude.{◌≡◌};
ghost use Rattle.octo_house_run.specs.Reconnecting.{new_reconnect, doubled, after_error, while_connecting, is_running, seen_in, is_due, after_asking};

use job_desk::State;

// How long a host waits after the first error before it connects again, in milliseconds.
const FIRST_WAIT: u64 = 10_000;

// The longest that it waits.
const MOST_WAIT: u64 = 300_000;

// What a host that connects by itself waits for.
#[derive(Clone, Copy, Debug, PartialEq, Eq)]
pub(crate) enum Reconnect {
    // It doesn't connect by itself.
    Off,
    // It has just begun, and connects at once.
    First,
    // It waits for an error, after which it waits this long.
    Watching { wait: u64 },
    // It connects at this moment, and waits this long after the next error.
    Due { at: u64, wait: u64 },
    // It was asked to disconnect or to stop the printer, and waits until it is asked to connect.
    Stopped,
}

// At a host's beginning, if it connects by itself or if it doesn't.
pub(crate) fn new_reconnect(connects: bool) -> Reconnect
    ensures { result ≡ new_reconnect connects }
{
    if connects {
        return Reconnect::First;
    }
    Reconnect::Off
}

// A wait after an error, doubled as long as that is no longer than the longest one.
fn doubled(wait: u64) -> u64
    ensures { result ≡ doubled wait }
{
    wait.min(MOST_WAIT / 2) * 2
}

// After an error at a moment.
fn after_error(reconnect: Reconnect, moment: u64) -> Reconnect
    ensures { result ≡ after_error moment reconnect }
{
    match reconnect {
        Reconnect::Watching { wait } => Reconnect::Due {
            at: moment.saturating_add(wait),
            wait: doubled(wait),
        },
        _ => reconnect,
    }
}

// While it connects.
fn while_connecting(reconnect: Reconnect) -> Reconnect
    ensures { result ≡ while_connecting reconnect }
{
    match reconnect {
        Reconnect::Due { wait, .. } => Reconnect::Watching { wait },
        Reconnect::Stopped => Reconnect::Watching { wait: FIRST_WAIT },
        _ => reconnect,
    }
}

impl Reconnect {
    // Whether this is a host that has begun and connects by itself.
    fn is_running(self) -> bool
        ensures { result ≡ is_running self }
    {
        !matches!(self, Reconnect::Off | Reconnect::First)
    }

    // After the desk was seen in a state at a moment in milliseconds.
    pub(crate) fn seen_in(self, state: State, moment: u64) -> Reconnect
        ensures { result ≡ seen_in state moment self }
    {
        if !self.is_running() {
            return self;
        }
        match state {
            State::Offline | State::Closing => Reconnect::Stopped,
            State::Connecting => while_connecting(self),
            State::Fault => after_error(self, moment),
            State::Operational
            | State::Printing
            | State::Pausing
            | State::Paused
            | State::Cancelling
            | State::Finishing => Reconnect::Watching { wait: FIRST_WAIT },
        }
    }

    // Whether it connects at a moment.
    pub(crate) fn is_due(self, moment: u64) -> bool
        ensures { result ≡ is_due moment self }
    {
        match self {
            Reconnect::First => true,
            Reconnect::Due { at, .. } => at <= moment,
            _ => false,
        }
    }

    // After it has asked for a connection.
    pub(crate) fn after_asking(self) -> Reconnect
        ensures { result ≡ after_asking self }
    {
        match self {
            Reconnect::First => Reconnect::Watching { wait: FIRST_WAIT },
            Reconnect::Due { wait, .. } => Reconnect::Watching { wait },
            _ => self,
        }
    }
}
