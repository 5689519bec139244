//! Floors of two printers by their settings. Out of memory, a test stops.
mod bench;
mod faults;
mod log;
mod objects;
mod refusals;
mod rows;
