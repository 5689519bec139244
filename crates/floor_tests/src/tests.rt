//! The log, settings, starts and reports of a floor.
mod log;
mod report;
mod settings;
mod starts;
