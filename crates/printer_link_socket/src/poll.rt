//! Waiting for a stream of the system.
use octo_outside_bell::Ear;
use std::os::fd::AsRawFd;

// How long a wait for input lasts, in milliseconds, and how long if no ring can end it, or if lines wait to be written.
const WAIT: u16 = 10;

const SHORT_WAIT: u16 = 1;

/// Whether a read has something to return within about 10 milliseconds, or one with a deaf ear, or if lines wait to be written. A ring ends
/// the wait; it isn't taken. If the poll fails, the read's own limit ends it.
pub(crate) fn may_read<S: AsRawFd>(stream: &S, ear: &Ear, is_short: bool) -> bool {
    let wait = if is_short || ear.is_deaf() {
        SHORT_WAIT
    } else {
        WAIT
    };
    ear.wait_beside(stream.as_raw_fd(), wait)
}
