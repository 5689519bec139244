//! Tests of what the commands of `octo` read and report: the command line, settings, measures, and the commands on files with the
//! texts of their reports. They are in a crate of their own because their proofs are slow.
#![tactic(auto)]

#[cfg(test)]
mod tests;
