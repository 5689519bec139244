//! Tests of what a print host keeps and logs: tables in memory, the files of a folder, and the log of calls. They are in a crate of their
//! own because the tests of a crate prove that crate a second time.
#![tactic(auto)]

#[cfg(test)]
mod tests;
