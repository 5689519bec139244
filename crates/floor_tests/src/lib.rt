//! Tests of a floor of printers: its settings, its log of events and which entry a printer starts next; one printer with its record,
//! and what the printers share; whole runs over links in memory, and rounds one by one.
#![tactic(auto)]

#[cfg(test)]
mod bay_tests;
#[cfg(test)]
mod run_tests;
#[cfg(test)]
mod tests;
