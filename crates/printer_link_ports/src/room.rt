//! Waiting until a stream of the system takes bytes.
use libc::net::{POLLOUT, poll};
use libc::types::pollfd;
use std::os::fd::AsRawFd;

/// Waits until there is room for a write, or the stream has failed, for about that many milliseconds at most.
pub(crate) fn wait_for_room<S: AsRawFd>(stream: &S, millis: u16) {
    let mut asked = [pollfd {
        fd: stream.as_raw_fd(),
        events: POLLOUT,
        revents: 0,
    }];
    let _ = poll(&mut asked, millis as i32);
}
