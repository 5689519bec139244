//! Tests of the keeper over a database: beside the one in memory, over databases that are refused, over disks that stop, and below a
//! host.
#![tactic(auto)]

#[cfg(test)]
mod tests;
