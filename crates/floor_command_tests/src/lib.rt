//! Tests of the command `floor`: through `octo`, over links, a keeper, a shelf and files in memory; and of the lines of its log.
#![tactic(auto)]

#[cfg(test)]
mod tests;
