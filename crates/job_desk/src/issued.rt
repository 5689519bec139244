//! Issued lines, and what one turn of the link did.
use crate::link_fact::LinkFact;
use crate::state::Tag;
use arrayvec::ArrayVec;
use byte_text::Text;
use marlin_reply::Temps;

/// A line that was issued, and where it comes from.
#[derive(Debug, PartialEq, Eq, Default, Drop)]
pub struct Issued {
    pub text: Text,
    pub tag: Tag,
}

/// What one turn did: its moment in milliseconds, how many lines of the session are acknowledged, the lines that it issued,
/// the temperatures that it received and what it found of the link.
#[derive(Drop)]
pub struct Note {
    pub moment: u64,
    pub acked: u32,
    pub issued: ArrayVec<Issued, 16>,
    pub temps: Option<Temps>,
    pub fact: LinkFact,
}
