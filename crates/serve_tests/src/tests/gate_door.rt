//! Doors in memory, of which one waits for another.
ghost use Rattle.std.proofs.Props.{props};
ghost use Rattle.std.specs.Prelude.{◌≡◌, IfSome, None, false, [], Option, List, ℕ};

use super::gate_conn::GateConn;
use arrayvec::ArrayVec;
use octo_outside::{CallList, Failed, MemoryConn};
use octo_outside_bell::Bell;
use octo_outside_doors::{Door, Doors, Knock};
use std::alloc::Global;
use std::process::Abort;
use std::sync::Arc;
use std::sync::atomic::{AtomicBool, Ordering};
use std::time::Clock;

// A door with at most one connection. It says neither what comes nor what was served.
//
// Of four such doors, the input of the first one's connection comes only once the second one's
// was given back. So both are served only if two workers are at work at once.
#[derive(Drop)]
pub(super) struct GateDoor<R: Drop> {
    coming: Option<GateConn<R>>,
    finished: Option<GateConn<R>>,
    // What giving a connection back opens.
    opens: Option<Arc<AtomicBool>>,
    ghost fresh: { IfSome coming (λ c. (c.faults ≡ 0) × (c.quiets ≡ 0)) } by { Prim.hlevel props },
}

// A connection with this input and, perhaps, a gate.
fn conn<R: Abort + Copy + Drop>(
    rt: &R,
    alloc: Global,
    input: &[u8],
    gate: Option<Arc<AtomicBool>>,
) -> GateConn<R>
    ensures { (result.faults ≡ 0) × (result.quiets ≡ 0) }
{
    GateConn {
        rt: *rt,
        input: input_of(rt, alloc, input),
        written: ArrayVec::new(),
        gate,
        faults: 0,
        quiets: 0,
    }
}

fn input_of(rt: &impl Abort, alloc: Global, input: &[u8]) -> MemoryConn {
    MemoryConn::new(alloc, input, CallList::new(alloc), CallList::new(alloc)).expect(
        rt,
        "no memory",
    )
}

// A gate that is closed.
fn closed(rt: &impl Abort, alloc: Global) -> Arc<AtomicBool> {
    Arc::new(alloc, AtomicBool::new(false)).expect(rt, "no memory")
}

fn same(rt: &impl Abort, gate: &Arc<AtomicBool>) -> Arc<AtomicBool> {
    Arc::try_clone(gate).expect(rt, "no memory")
}

impl<R: Abort + Copy + Drop> GateDoor<R> {
    // A door at which no connection comes.
    fn empty() -> Self {
        GateDoor {
            coming: None,
            finished: None,
            opens: None,
        }
    }

    // A door at which this connection comes, and what giving it back opens.
    fn of(conn: GateConn<R>, opens: Option<Arc<AtomicBool>>) -> Self
        requires { (conn.faults ≡ 0) × (conn.quiets ≡ 0) }
    {
        GateDoor {
            coming: Some(conn),
            finished: None,
            opens,
        }
    }

    // Four doors: door a has one connection with the bytes `one`, door b one with the bytes `two`,
    // and the others have none. While door b's connection isn't given back, a read of door a's
    // rests for a millisecond and finds nothing yet. Stops if out of memory.
    pub(super) fn four(rt: &R, alloc: Global, one: &[u8], two: &[u8]) -> Doors<GateDoor<R>> {
        let gate = closed(rt, alloc);
        let opens = same(rt, &gate);
        Doors {
            a: GateDoor::of(conn(rt, alloc, one, Some(gate)), None),
            b: GateDoor::of(conn(rt, alloc, two, None), Some(opens)),
            c: GateDoor::empty(),
            d: GateDoor::empty(),
        }
    }

    // What was written to the connection that was given back.
    pub(super) fn reply(&self) -> &[u8] {
        match &self.finished {
            Some(conn) => conn.written.as_slice(),
            None => &[],
        }
    }
}

impl<R: Clock + Copy + Send + Drop> Door for GateDoor<R> {
    type Conn = GateConn<R>;

    ghost state = { λ _. record { coming = None; served = None; faults = 0; has_failed = false } };

    fn accept(&mut self) -> Result<Knock<GateConn<R>>, Failed> {
        match self.coming.take() {
            Some(conn) => Ok(Knock::Conn(conn)),
            None => Ok(Knock::Ended),
        }
    }

    fn finish(&mut self, conn: GateConn<R>) {
        self.finished = Some(conn);
        if let Some(gate) = &self.opens {
            gate.store(true, Ordering::SeqCst);
        }
    }

    fn bell(&self) -> Bell {
        Bell::silent()
    }
}
