//! Tables and a shelf in memory.
mod settling;
mod shelf;
mod tables;

use octo_outside::CallList;
use std::alloc::Global;
use std::process::Abort;

// The list of one call.
pub(super) fn only(rt: &impl Abort, alloc: Global, call: u64) -> CallList {
    let mut calls = CallList::new(alloc);
    assert!(rt; calls.push(call).is_ok());
    calls
}
