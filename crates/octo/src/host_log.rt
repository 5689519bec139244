//! The log of a host.
use octo_log::LoggedDoor;
use octo_outside::{Failed, Sink};
use octo_outside_doors::{Door, Doors, TcpDoor};
use std::io::Print;

// Which logs there are: of the calls of keeper, shelf and link, and of what a host or a floor does.
#[derive(Clone, Copy)]
pub(crate) struct Logs {
    pub calls: bool,
    pub events: bool,
}

// Doors over TCP whose refusals are logged.
pub(crate) type HostDoors<R> = Doors<LoggedDoor<TcpDoor<R>, HostLog>>;

// The standard error for a host that listens, and nothing where no host is or it never began: then the cause of that is all that is
// said. It doesn't record what was written.
#[derive(Drop)]
pub(crate) struct HostLog {
    system: HostRuntime,
    is_on: bool,
    faults: u64,
}

impl HostLog {
    pub(crate) fn new(system: &HostRuntime, is_on: bool) -> Self {
        HostLog {
            system: *system,
            is_on,
            faults: 0,
        }
    }
}

impl Sink for HostLog {
    ghost use Rattle.std.specs.Prelude.{None};

    ghost written = { λ _. None };

    ghost faults = { λ l. l.faults };

    fn write(&mut self, bytes: &[u8]) -> Result<usize, Failed> {
        if !self.is_on {
            return Ok(bytes.len());
        }
        if let Ok(n) = self.system.stderr().write_some(bytes)
            && n > 0
        {
            return Ok(n);
        }
        self.faults = self.faults.saturating_add(1);
        Err(Failed)
    }
}

// These doors with a log each, if the host has one.
pub(crate) fn with_log<D: Door + Drop>(
    system: &HostRuntime,
    doors: Doors<D>,
    is_on: bool,
) -> Doors<LoggedDoor<D, HostLog>> {
    let Doors { a, b, c, d } = doors;
    Doors {
        a: LoggedDoor::new(a, HostLog::new(system, is_on)),
        b: LoggedDoor::new(b, HostLog::new(system, is_on)),
        c: LoggedDoor::new(c, HostLog::new(system, is_on)),
        d: LoggedDoor::new(d, HostLog::new(system, is_on)),
    }
}

// Drops doors one by one: as a whole they would be the largest part of a caller's proof.
pub(crate) fn drop_doors<D: Drop>(doors: Doors<D>) {
    let Doors { a, b, c, d } = doors;
    drop(a);
    drop(b);
    drop(c);
    drop(d);
}
