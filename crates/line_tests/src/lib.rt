//! Tests of the crates along the way of a line to the printer and back: texts, words and lines of G-code, limits of heaters, frames,
//! replies, the modelled printer, links in memory, and senders. They are in a crate of their own because the tests of a crate
//! prove that crate a second time.
#![tactic(auto)]

#[cfg(test)]
mod tests;
