//! A module for each part that is tested.
mod fetched;
mod folder;
mod keeper;
mod log;

// The key of the user ana.
const ANA_KEY: &[u8] = b"ana-key-0123456789";
