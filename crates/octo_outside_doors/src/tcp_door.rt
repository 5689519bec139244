//! Doors over TCP.
ghost use Rattle.std.specs.Prelude.{◌≡◌, None, false, true, ◌||◌, is_err, IfOk, OnOk, IsErr, IsOkAnd, ⊤};
ghost use Rattle.octo_outside.specs.Recorded.{Counts};
ghost use Rattle.octo_outside_doors.specs.Doors.{Each, IsNew, IsEnded, unrecorded};

use crate::arrivals::{Arrival, Arrivals, address_of, next_of};
use crate::{Door, DoorConn, Doors, Knock};
use octo_outside::Failed;
use octo_outside_bell::Bell;
use std::alloc::{AllocError, Global};
use std::io;
use std::net::{Net, OpenListener, SocketAddr, TcpListener, TcpStream};
use std::os::fd::OwnedFd;
use std::sync::{Arc, Mutex, Wait};
use std::time::{Clock, Duration};

// How long one call of the listener waits for a connection, in milliseconds.
const WAIT: u64 = 10;

/// A door over TCP. It says neither which connections come nor what was served.
///
/// Four doors share one listener, and one list of the connections that no worker has yet: see `Arrivals`. So a call returns a
/// connection whose worker needs not wait for its head, and for nothing of it if the other three doors have one out. It waits
/// for about 10 milliseconds, or for 50 if none of the doors has a connection out, and for the calls of the other three doors
/// before it. A connection that is given back is written out and closed in order: see `DoorConn::finish`.
#[derive(Drop)]
pub struct TcpDoor<R: Net + Drop> {
    rt: R,
    arrivals: Option<Arc<Mutex<Arrivals>>>,
    bell: Bell,
    // Its worker has a connection.
    is_out: bool,
    faults: u64,
    has_failed: bool,
}

// A listener each of whose calls waits for a bounded time. The limit belongs to the socket, which a stream over a
// second descriptor of it sets.
fn listen<R: Net<Listener = TcpListener, Stream = TcpStream>>(
    rt: &R,
    address: &str,
) -> io::Result<TcpListener> {
    let listener = TcpListener::bind(rt, address)?;
    let same = TcpStream::from(OwnedFd::from(listener.try_clone()?));
    same.set_read_timeout(Some(Duration::from_millis(WAIT)))?;
    Ok(listener)
}

impl<R: Net + Wait + Drop> TcpDoor<R> {
    /// The address at which the door's listener is bound.
    pub fn address(&self) -> Option<SocketAddr> {
        address_of(&self.rt, self.arrivals.as_ref()?)
    }
}

impl<R: Net<Listener = TcpListener, Stream = TcpStream> + Copy> TcpDoor<R> {
    /// A door whose first call fails, with a bell that nobody hears.
    pub fn absent(rt: &R) -> Self
        ensures new { (result.faults ≡ 0) × (result.has_failed ≡ false) }
        ensures arrivals { result.arrivals ≡ None }
    {
        TcpDoor {
            rt: *rt,
            arrivals: None,
            bell: Bell::silent(),
            is_out: false,
            faults: 0,
            has_failed: false,
        }
    }

    // A door over this listener and its connections.
    fn over(rt: &R, arrivals: Arc<Mutex<Arrivals>>, bell: Bell) -> Self
        ensures { (result.faults ≡ 0) × (result.has_failed ≡ false) }
    {
        TcpDoor {
            rt: *rt,
            arrivals: Some(arrivals),
            bell,
            is_out: false,
            faults: 0,
            has_failed: false,
        }
    }

    /// Four doors with this bell at the address `HOST:PORT`. If the address can't be bound, the first call of each door fails. This call
    /// fails only if out of memory.
    pub fn four(
        rt: &R,
        alloc: Global,
        address: &str,
        bell: &Bell,
    ) -> Result<Doors<TcpDoor<R>>, AllocError>
        // No call of any of them has failed yet.
        ensures { IfOk result (λ doors.
            Each doors (λ door. (door.faults ≡ 0) × (door.has_failed ≡ false))) }
    {
        let Ok(listener) = listen(rt, address) else {
            return Ok(Doors {
                a: TcpDoor::absent(rt),
                b: TcpDoor::absent(rt),
                c: TcpDoor::absent(rt),
                d: TcpDoor::absent(rt),
            });
        };
        let shared = Arc::new(alloc, Mutex::new(Arrivals::new(alloc, listener)?))?;
        Ok(Doors {
            a: TcpDoor::over(rt, Arc::try_clone(&shared)?, bell.copy()),
            b: TcpDoor::over(rt, Arc::try_clone(&shared)?, bell.copy()),
            c: TcpDoor::over(rt, Arc::try_clone(&shared)?, bell.copy()),
            d: TcpDoor::over(rt, shared, bell.copy()),
        })
    }

    // A call fails: the door is closed.
    fn fail(&mut self) -> Failed
        ensures counts { Counts ⊤ self.old.faults self.new.faults }
        ensures has_failed { self.new.has_failed ≡ true }
    {
        self.arrivals = None;
        self.has_failed = true;
        self.faults = self.faults.saturating_add(1);
        Failed
    }
}

impl<R: Net<Listener = TcpListener, Stream = TcpStream> + Clock + Wait + Copy> TcpDoor<R> {
    // The connection that is handed on within that time, if one is; an error if the listener failed.
    fn next_arrival(&mut self) -> Result<Option<Arrival>, Failed>
        ensures absent { self.old.arrivals ≡ None → IsErr result }
        ensures has_failed { self.new.has_failed ≡ self.old.has_failed }
        ensures faults { self.new.faults ≡ self.old.faults }
    {
        let Some(arrivals) = &self.arrivals else {
            return Err(Failed);
        };
        match next_of(&self.rt, arrivals, self.is_out) {
            Ok(arrival) => {
                self.is_out = arrival.is_some();
                Ok(arrival)
            }
            Err(_) => Err(Failed),
        }
    }
}

impl<R: Net<Listener = TcpListener, Stream = TcpStream> + Clock + Wait + Copy + Send> Door
    for TcpDoor<R> {
    type Conn = DoorConn<R>;

    ghost state = { λ d. record { coming = None; served = None; faults = d.faults; has_failed = d.has_failed } };

    fn accept(&mut self) -> Result<Knock<DoorConn<R>>, Failed>
        ensures absent { self.old.arrivals ≡ None → self.old.has_failed ≡ false → IsErr result }
        ensures fresh { IfOk result (λ knock.
            IsNew (λ (conn : DoorConn R). unrecorded conn.faults conn.quiets) knock) }
        ensures has_failed { self.new.has_failed ≡ (self.old.has_failed || is_err result) }
        ensures after { self.old.has_failed ≡ true → IsOkAnd result IsEnded }
        ensures counts { Counts (IsErr result) self.old.faults self.new.faults }
        ensures steady { OnOk result (self.new.faults ≡ self.old.faults) }
    {
        if self.has_failed {
            return Ok(Knock::Ended);
        }
        match self.next_arrival() {
            Ok(Some(arrival)) => Ok(Knock::Conn(DoorConn::new(self.rt, arrival))),
            Ok(None) => Ok(Knock::Quiet),
            Err(_) => Err(self.fail()),
        }
    }

    fn finish(&mut self, conn: DoorConn<R>) {
        conn.finish();
    }

    fn bell(&self) -> Bell {
        self.bell.copy()
    }
}
