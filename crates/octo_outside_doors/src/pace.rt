//! How long a slow peer may keep a connection waiting.
ghost use Rattle.std.specs.Prelude.{◌≡◌, ◌+◌, ◌-◌, ◌*◌, ◌↔◌, min, IsTrue};
ghost use Rattle.octo_outside_doors.specs.declared.pace.TheConstants.{MOST, OF_A_BYTE};

// For how long a peer may keep a connection waiting at first, and at most, in nanoseconds: 10 seconds.
const MOST: u64 = 10_000_000_000;

// What each byte adds, in nanoseconds: a peer of 12,800 bytes a second stays as it is.
const OF_A_BYTE: u64 = 78_125;

/// For how long a peer may still keep a connection waiting. The time that it does is taken off, and each byte that moves
/// adds some, up to 10 seconds.
#[derive(Clone, Copy)]
pub(crate) struct Pace {
    left: u64,
}

impl Pace {
    // Nothing was waited for yet.
    pub(crate) fn new() -> Self
        ensures { result.left ≡ MOST }
    {
        Pace { left: MOST }
    }

    // No time is left.
    pub(crate) fn used_up() -> Self
        ensures { result.left ≡ 0 }
    {
        Pace { left: 0 }
    }

    // Whether the peer may not keep the connection waiting any more.
    pub(crate) fn is_used_up(&self) -> bool
        ensures { IsTrue result ↔ (self.now.left ≡ 0) }
    {
        self.left == 0
    }

    // The peer kept the connection waiting for these nanoseconds.
    pub(crate) fn wait(&mut self, nanos: u64)
        ensures { self.new.left ≡ self.old.left - nanos }
    {
        self.left = self.left.saturating_sub(nanos);
    }

    // The peer sent or took this number of bytes.
    pub(crate) fn earn(&mut self, bytes: usize)
        ensures { self.new.left ≡ min (self.old.left + bytes * OF_A_BYTE) MOST }
    {
        let earned = (bytes as u64).saturating_mul(OF_A_BYTE);
        self.left = self.left.saturating_add(earned).min(MOST);
    }
}
