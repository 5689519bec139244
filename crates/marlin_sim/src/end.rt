//! How a simulation ends.

/// How a simulation ended.
#[derive(Clone, Copy, Debug, PartialEq, Eq)]
pub enum SimEnd {
    /// The peer has closed, and all that it sent was taken and run.
    Done,
    /// The arguments are no plan.
    BadPlan,
    /// The connection failed.
    ConnFailed,
    /// What was executed couldn't be printed.
    SinkFailed,
    /// All turns were made before the peer had closed.
    TurnsUsed { turns: u64 },
    /// Memory ran out.
    NoMemory,
}

impl SimEnd {
    ghost use Rattle.std.specs.Prelude.{◌≡◌};
    ghost use Rattle.marlin_sim.specs.Served.{code_of};

    /// The exit status.
    pub fn code(&self) -> u8
        ensures { result ≡ code_of self.now }
    {
        match self {
            SimEnd::Done => 0,
            SimEnd::BadPlan => 2,
            SimEnd::ConnFailed => 12,
            SimEnd::SinkFailed => 8,
            SimEnd::TurnsUsed { .. } => 10,
            SimEnd::NoMemory => 11,
        }
    }
}
