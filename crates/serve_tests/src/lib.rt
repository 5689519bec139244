//! Tests of a host that serves: the ends of its workers, four workers at doors in memory, and the whole host by its settings. And of
//! whole commands. They are in a crate above theirs because the tests of a crate prove that crate a second time.
#![tactic(auto)]

#[cfg(test)]
mod tests;
