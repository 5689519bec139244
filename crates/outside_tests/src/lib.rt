//! Tests of the world outside and of what a print host asks and is asked: files, output, connections and clocks in memory and over the
//! system, doors and sockets, names, users, queues and asks. They are in a crate of their own because the tests of a crate prove that
//! crate a second time.
#![tactic(auto)]

#[cfg(test)]
mod tests;
