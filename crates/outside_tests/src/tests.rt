//! A module for each crate that is tested.
mod access;
mod asks;
mod bell;
mod doors;
mod last_worker;
mod names;
mod outside;
mod queue;
mod sockets;

// The key of the user ana.
const ANA_KEY: &[u8] = b"ana-key-0123456789";
