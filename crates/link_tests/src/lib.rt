//! Tests of links to printers over sockets and serial devices. They are in a crate of their own because the tests of a crate prove that
//! crate a second time.
#![tactic(auto)]

#[cfg(test)]
mod tests;
