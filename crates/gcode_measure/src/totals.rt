//! What commands add up to.

/// The least and the greatest position of an axis after a move, in millionths of a millimetre.
#[derive(Clone, Copy, Debug, PartialEq, Eq)]
pub struct Extent {
    pub low: i128,
    pub high: i128,
}

/// What the commands of a file do, in millionths of a millimetre.
#[derive(Clone, Copy, Debug, PartialEq, Eq)]
pub struct Measure {
    /// The number of commands.
    pub commands: u32,
    /// The number of moves among the commands.
    pub moves: u32,
    /// How much filament all moves feed.
    pub fed: i128,
    /// How much filament all moves draw back.
    pub drawn: i128,
    /// Where the moves end, None without a move.
    pub x: Option<Extent>,
    pub y: Option<Extent>,
    pub z: Option<Extent>,
}
