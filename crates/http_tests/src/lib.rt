//! Tests of HTTP messages: of their pieces, of replies, of inputs that are cut at each place, that come byte by byte, and that
//! contradict themselves, and of the parts of forms. They are in a crate of their own because their proofs are slow.
#![tactic(auto)]

#[cfg(test)]
mod tests;
