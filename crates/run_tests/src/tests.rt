//! Runs over a counter, a keeper, a shelf and a link in memory; and each call of rows, tables and the desk that takes memory, once.
mod asks;
mod clocks;
mod connections;
mod desk;
mod logged;
mod makers;
mod prints;
mod ran;
mod rows;
mod runs;
mod seen;
mod slow_counter;
mod tables;

use asks::{add, leave, put_file, stop, versions};
use octo_asks::{AskList, Request};
use ran::Ran;
use seen::{Seen, SeenEntry};
use test_makers::ROOT;
