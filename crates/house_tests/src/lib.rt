//! Tests of a host: what it answers, records and keeps, over a keeper, a shelf and a link in memory, also if one of their calls
//! fails. They have a crate of their own because their proofs are slow.
#![tactic(auto)]

#[cfg(test)]
mod tests;
