//! How a run of the tool ends.
ghost use Rattle.std.specs.Prelude.{◌≡◌};
ghost use Rattle.keeper_tool.specs.Ends.{end_of};

use octo_keeper::KeeperFault;

/// How a run ended.
#[derive(Clone, Copy, Debug, PartialEq, Eq)]
pub enum ToolEnd {
    /// The tables were written out.
    Shown,
    /// This number of print records was added.
    Added { prints: u32 },
    /// The arguments are no command.
    BadArguments,
    /// There is no number left for a print.
    NumbersUsed,
    /// The database failed, or its rows aren't those of a host.
    KeeperFailed,
    /// The output failed.
    OutputFailed,
    /// The database couldn't be opened and adopted.
    NotOpened,
    /// Memory ran out.
    NoMemory,
}

impl ToolEnd {
    ghost use Rattle.std.specs.Prelude.{◌≡◌};
    ghost use Rattle.keeper_tool.specs.Ends.{code_of};

    /// The exit status.
    pub fn code(&self) -> u8
        ensures { result ≡ code_of self.now }
    {
        match self {
            ToolEnd::Shown | ToolEnd::Added { .. } => 0,
            ToolEnd::BadArguments => 2,
            ToolEnd::NumbersUsed => 3,
            ToolEnd::KeeperFailed => 4,
            ToolEnd::OutputFailed => 8,
            ToolEnd::NotOpened => 9,
            ToolEnd::NoMemory => 11,
        }
    }
}

/// The end of a run whose keeper had a fault.
pub fn end_of(fault: KeeperFault) -> ToolEnd
    ensures { result ≡ end_of fault }
{
    match fault {
        KeeperFault::Failed => ToolEnd::KeeperFailed,
        KeeperFault::NoMemory => ToolEnd::NoMemory,
    }
}
