//! What a floor in memory is made of.
use printer_link::Fate;

/// An entry of ana's: its name, file, priority (at most 100), copies (1 to 100) and material.
pub type EntryRow = (&'static str, &'static str, u8, u8, &'static str);

/// What is done over the links.
#[derive(Clone, Copy)]
pub struct Wires {
    /// Whether the printers number their `ok`s, and the senders expect that.
    pub numbered: bool,
    /// What becomes of the first lines that are sent over each link.
    pub fates: &'static [Fate],
    /// The replies that each link loses, counted from 1.
    pub lost: &'static [u64],
    /// The calls of link b that fail, counted from 1.
    pub fails: &'static [u64],
}

/// Links that lose nothing, to printers whose `ok`s have no numbers.
pub const CLEAN: Wires = Wires {
    numbered: false,
    fates: &[],
    lost: &[],
    fails: &[],
};

/// A shop: its printers, its queue and files, and what goes wrong.
#[derive(Clone, Copy)]
pub struct Shop {
    /// The material of each printer, 2 to 8.
    pub materials: &'static [&'static str],
    /// The entries, in the order in which they arrive.
    pub entries: &'static [EntryRow],
    /// Each file's name and its bytes.
    pub files: &'static [(&'static str, &'static [u8])],
    pub wires: Wires,
    /// The calls of the keeper that fail, counted from 1.
    pub keeper: &'static [u64],
    /// The calls of the shelf that fail, counted from 1; each file takes one call to be put.
    pub shelf: &'static [u64],
}
