//! A door that waits for another.
use octo_outside::{Failed, MemoryConn};
use octo_outside_bell::Bell;
use octo_outside_doors::{Door, Knock, MemoryDoor};
use std::alloc::Global;
use std::process::Abort;
use std::sync::Arc;
use std::sync::atomic::{AtomicBool, Ordering};
use std::thread;
use std::time::{Clock, Duration};
use test_makers::door_of;

// A door in memory that may wait, for at most ten seconds, until another one has given back a number of connections.
#[derive(Drop)]
pub(super) struct LateDoor<R: Drop> {
    rt: R,
    door: MemoryDoor,
    gate: Arc<AtomicBool>,
    waits: bool,
    finished: u64,
    // After which connection the gate opens, counted from 1.
    opens_at: u64,
}

impl<R: Clock + Copy + Send + Drop> Door for LateDoor<R> {
    ghost use Rattle.std.specs.Prelude.{None};

    type Conn = MemoryConn;

    ghost state = { λ d. record {
      coming = None;
      served = None;
      faults = d.door.faults;
      has_failed = d.door.has_failed;
    } };

    fn accept(&mut self) -> Result<Knock<MemoryConn>, Failed> {
        for _ in 0..10_000 {
            if !self.waits || self.gate.load(Ordering::SeqCst) {
                break;
            }
            thread::sleep(&self.rt, Duration::from_millis(1));
        }
        self.door.accept()
    }

    fn finish(&mut self, conn: MemoryConn) {
        self.door.finish(conn);
        self.finished = self.finished.saturating_add(1);
        if self.finished == self.opens_at {
            self.gate.store(true, Ordering::SeqCst);
        }
    }

    fn bell(&self) -> Bell {
        Bell::silent()
    }
}

// A gate that is closed.
pub(super) fn gate(rt: &impl Abort, alloc: Global) -> Arc<AtomicBool> {
    Arc::new(alloc, AtomicBool::new(false)).expect(rt, "no memory")
}

fn same_gate(rt: &impl Abort, gate: &Arc<AtomicBool>) -> Arc<AtomicBool> {
    Arc::try_clone(gate).expect(rt, "no memory")
}

fn door(rt: &impl Abort, alloc: Global, inputs: &[&[u8]]) -> MemoryDoor {
    door_of(alloc, inputs, &[]).expect(rt, "no memory")
}

impl<R: Abort + Copy + Drop> LateDoor<R> {
    // A door at which connections with these inputs come.
    pub(super) fn new(
        rt: &R,
        alloc: Global,
        gate: &Arc<AtomicBool>,
        inputs: &[&[u8]],
        waits: bool,
        opens_at: u64,
    ) -> LateDoor<R> {
        LateDoor {
            rt: *rt,
            door: door(rt, alloc, inputs),
            gate: same_gate(rt, gate),
            waits,
            finished: 0,
            opens_at,
        }
    }

    pub(super) fn door(&self) -> &MemoryDoor {
        &self.door
    }
}
