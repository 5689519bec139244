//! What a link in memory does by itself.
use octo_outside::{CallList, ItemList, NameList};

/// What becomes of a line that is sent.
#[derive(Clone, Copy, Debug, PartialEq, Eq)]
pub enum Fate {
    /// It arrives as it was sent.
    Whole,
    /// It is lost.
    Lost,
    /// Its last byte, a digit, becomes the next digit, with 0 after 9.
    Garbled,
}

/// The fates of the lines that are sent, in order.
pub type FateList = ItemList<Fate>;

/// What a link in memory does at each call.
#[derive(Drop)]
pub struct Schedule {
    /// The ports that are listed.
    pub names: NameList,
    /// The printer's last line number when the first link is made.
    pub last: u32,
    /// How many lines the printer keeps waiting, 1 to 16.
    pub slots: u8,
    /// Whether the printer's acknowledgements are numbered.
    pub numbered: bool,
    /// The fate of each line that is sent; later ones arrive whole.
    pub fates: FateList,
    /// The printer runs a line at each (`slow` + 1)-th call of `recv`.
    pub slow: u32,
    /// The calls that fail, counted from 1.
    pub fail_at: CallList,
    /// The calls of `recv` at which the printer restarts first, counted from 1.
    pub restart_at: CallList,
    /// The replies that are lost, counted from 1 as they join the wire from the printer.
    pub lost: CallList,
}
