//! The errors of a listener that pass.
ghost use Rattle.std.specs.Prelude.{◌≡◌};
ghost use Rattle.std.specs.IoError.{raw_os_error};
ghost use Rattle.octo_outside_doors.specs.Passing.{is_passing, may_pass};

use std::io;

// The numbers of Linux for errors of a call of accept after which a later call may bring a connection: the process or the
// system has no room for one now, the peer left, or its network failed. Source: Linux, accept(2), "Error handling" and "Errors".
const PASSING: [i32; 14] = [
    EMFILE,
    ENFILE,
    ENOBUFS,
    ENOMEM,
    ECONNABORTED,
    EPERM,
    EPROTO,
    ENOPROTOOPT,
    EOPNOTSUPP,
    ENETDOWN,
    ENETUNREACH,
    EHOSTDOWN,
    EHOSTUNREACH,
    ENONET,
];

const EPERM: i32 = 1;

const ENOMEM: i32 = 12;

const ENFILE: i32 = 23;

const EMFILE: i32 = 24;

const ENONET: i32 = 64;

const EPROTO: i32 = 71;

const ENOPROTOOPT: i32 = 92;

const EOPNOTSUPP: i32 = 95;

const ENETDOWN: i32 = 100;

const ENETUNREACH: i32 = 101;

const ECONNABORTED: i32 = 103;

const ENOBUFS: i32 = 105;

const EHOSTDOWN: i32 = 112;

const EHOSTUNREACH: i32 = 113;

// Whether this is one of those numbers.
fn is_passing(number: i32) -> bool
    ensures { result ≡ is_passing number }
{
    PASSING.contains(&number)
}

/// Whether no connection came, and a later call may bring one: the peer left or its network failed, or the system has no room now.
pub fn may_pass(error: &io::Error) -> bool
    ensures { result ≡ may_pass (raw_os_error error.now) }
{
    match error.raw_os_error() {
        Some(number) => is_passing(number),
        None => false,
    }
}
