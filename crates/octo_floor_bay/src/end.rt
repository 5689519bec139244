//! How a run of a floor ended.

/// Why a floor starts no more prints, and ends.
#[derive(Clone, Copy, Debug, PartialEq, Eq)]
pub enum FloorFault {
    /// A change couldn't be written to the tables.
    KeeperFailed,
    /// A file couldn't be read.
    ShelfFailed,
    /// Out of memory.
    NoMemory,
}

/// Why a run of a floor ended.
#[derive(Clone, Copy, Debug, PartialEq, Eq)]
pub enum Why {
    /// No print goes on, and no printer has an entry to start.
    Over,
    /// A fault came.
    Fault(FloorFault),
    /// The turns were used up.
    TurnsUsed,
}

/// How a run of a floor ended, and what the floor did since it was made.
#[derive(Clone, Copy, Debug, PartialEq, Eq)]
pub struct FloorEnd {
    /// The number of prints that were started.
    pub prints: u32,
    /// How many of them are done.
    pub done: u32,
    /// How many of them failed.
    pub failed: u32,
    /// The number of copies in the queue that were not started.
    pub left: u64,
    /// The number of printers that were lost.
    pub lost: u8,
    pub why: Why,
}
