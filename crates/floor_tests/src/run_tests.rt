//! Floors of printers in memory.
mod ends;
mod faults;
mod losses;
mod rounds;
mod rows;
mod seen;
mod shops;
mod watched;
