//! Tests of a host's run: what its history holds and what it leaves, over a counter, a keeper, a shelf and a link in memory. And of
//! the rows, the tables and the desk below it: that each call that takes memory can succeed, and what it returns then. They are in
//! a crate of their own because their proofs are slow.
#![tactic(auto)]

#[cfg(test)]
mod tests;
