//! The links of a floor.

// The most printers of a floor: each has a link.
pub(crate) const MOST_LINKS: usize = 8;

/// The links of a floor's printers, eight of one kind: printer 0 uses `a`. Those of printers that a floor doesn't have are left
/// alone.
#[derive(Drop)]
pub struct Links<L: Drop> {
    pub a: L,
    pub b: L,
    pub c: L,
    pub d: L,
    pub e: L,
    pub f: L,
    pub g: L,
    pub h: L,
}
