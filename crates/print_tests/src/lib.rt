//! Tests of sessions, of whole prints, of demos and of `octo print`, over links in memory that lose and corrupt lines. They are in a
//! crate above theirs because the tests of a crate prove that crate a second time.
#![tactic(auto)]

#[cfg(test)]
mod tests;
