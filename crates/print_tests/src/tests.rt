//! Sessions, prints, demos and prints of files, over links in memory.
mod demos;
mod files;
mod makers;
mod prints;
mod turns;
