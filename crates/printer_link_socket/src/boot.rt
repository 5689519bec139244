//! How long a link waits for a printer that may restart when its line is opened.
//!
//! Source: Marlin's `HOST_KEEPALIVE_FEATURE` and `DEFAULT_KEEPALIVE_INTERVAL`, 2 seconds: a printer that still executes says so.
ghost use Rattle.std.specs.Prelude.{◌≡◌, ◌+◌, ◌-◌, ◌≤◌, ◌↔◌, ℕ, IsTrue};
ghost use Rattle.printer_link_socket.specs.declared.boot.TheConstants.{SILENCE, PATIENCE};

// For how many milliseconds a printer that owes no reply is silent.
const SILENCE: u64 = 2_500;

// For how many milliseconds more than its boot time a printer may go on speaking.
const PATIENCE: u64 = 60_000;

/// What a link waits for before it is used.
#[derive(Clone, Copy)]
pub(crate) enum Stage {
    /// A peer may accept the connection yet. The printer may then take this number of milliseconds to start.
    Connecting(u16),
    /// The printer may be starting.
    Booting(Boot),
}

/// A wait for a printer: since when, since when it is silent, and how long it may take to start, in milliseconds.
#[derive(Clone, Copy)]
pub(crate) struct Boot {
    opened: u64,
    silent: u64,
    boot_ms: u16,
}

impl Boot {
    /// A wait that begins at this moment.
    pub(crate) fn new(now: u64, boot_ms: u16) -> Self
        ensures { result ≡ record { opened = now; silent = now; boot_ms = boot_ms } }
    {
        Boot {
            opened: now,
            silent: now,
            boot_ms,
        }
    }

    /// The wait after the printer spoke at this moment.
    pub(crate) fn after_speech(self, now: u64) -> Self
        ensures { result ≡ record self { silent = now } }
    {
        Boot {
            silent: now,
            ..self
        }
    }

    /// Whether the printer had time to start and was silent for long enough.
    pub(crate) fn is_over(&self, now: u64) -> bool
        ensures { IsTrue result
            ↔ (self.now.boot_ms ≤ now - self.now.opened) × (SILENCE ≤ now - self.now.silent) }
    {
        u64::from(self.boot_ms) <= now.saturating_sub(self.opened)
            && SILENCE <= now.saturating_sub(self.silent)
    }

    /// Whether the printer spoke for too long.
    pub(crate) fn is_hopeless(&self, now: u64) -> bool
        ensures { IsTrue result ↔ (self.now.boot_ms + PATIENCE ≤ now - self.now.opened) }
    {
        u64::from(self.boot_ms) + PATIENCE <= now.saturating_sub(self.opened)
    }
}
