//! The causes and their words.
//!
//! Source: errno(3) for the numbers of the system's errors.
ghost use Rattle.std.specs.Prelude.{◌≡◌, ◌≤◌, ◌++◌, length};
ghost use Rattle.std.specs.IoError.{raw_os_error};
ghost use Rattle.printer_link_cause.specs.Causes.{cause_of, cause_words, device_words, known_words, system_words};
ghost use Rattle.printer_link_cause.specs.declared.cause.TheConstants.{MOST_CAUSE_BYTES};

use arrayvec::ArrayVec;
use byte_text::{append, append_number, bounded_text};
use std::io;

/// The most bytes of a cause in words.
pub const MOST_CAUSE_BYTES: usize = 120;

/// A cause in words.
pub type CauseText = ArrayVec<u8, MOST_CAUSE_BYTES>;

/// Why a call of a link failed.
#[derive(Clone, Copy, Debug, PartialEq, Eq)]
pub enum Cause {
    /// An error of the system, by its number.
    System(u32),
    /// An error of the system that has no number.
    Unnumbered,
    /// The printer has closed the connection.
    Closed,
    /// The connection takes no more bytes.
    TakesNothing,
    /// So many lines wait to be written that there is no room for one more.
    ReadsNothing,
    /// The printer spoke for too long while it was to start.
    NeverSilent,
    /// The host's name has no address.
    NoAddress,
    /// The file of a serial device can't be opened, by an error of this number.
    NoDevice(u32),
    /// The file is no serial device.
    NoTerminal,
    /// Another program has locked the device.
    Taken,
    /// The program `stty` can't be run.
    NoStty,
    /// `stty` refused the line's settings.
    Refused,
    /// The device can't be set non-blocking.
    Blocking,
}

/// The cause that an error of the system is.
pub fn cause_of(error: &io::Error) -> Cause
    ensures { result ≡ cause_of (raw_os_error error.now) }
{
    match error.raw_os_error() {
        Some(number) => Cause::System(number.unsigned_abs()),
        None => Cause::Unnumbered,
    }
}

// The words of an error of this number; none if it isn't one that a link may meet.
fn known_words(number: u32) -> &'static [u8]
    ensures words { result.now ≡ known_words number }
    ensures short { length result.now ≤ 26 }
{
    match number {
        2 => b"no such file or directory",
        5 => b"input/output error",
        6 => b"no such device or address",
        13 => b"permission denied",
        16 => b"device or resource busy",
        19 => b"no such device",
        24 => b"too many open files",
        32 => b"broken pipe",
        100 => b"network is down",
        101 => b"network is unreachable",
        103 => b"connection aborted",
        104 => b"connection reset by peer",
        110 => b"connection timed out",
        111 => b"connection refused",
        112 => b"host is down",
        113 => b"no route to host",
        _ => b"",
    }
}

// Adds the words of an error of this number.
fn append_system(words: &mut CauseText, number: u32)
    requires { length words.old.items ≤ 40 }
    ensures words { words.new.items ≡ words.old.items ++ system_words number }
    ensures short { length words.new.items ≤ 70 }
{
    let known = known_words(number);
    if known.is_empty() {
        append(words, b"system error ");
        append_number(words, number);
    } else {
        append(words, known);
    }
}

// An error of this number in words, after these.
fn system_words(first: &[u8], number: u32) -> CauseText
    requires { length first.now ≤ 40 }
    ensures words { result.items ≡ first.now ++ system_words number }
    ensures short { length result.items ≤ 70 }
{
    let mut words = bounded_text(first);
    append_system(&mut words, number);
    words
}

// Why a serial device can't be used, with a hint.
fn device_words(cause: CauseText) -> CauseText
    requires { length cause.items ≤ 80 }
    ensures { result.items ≡ device_words cause.items }
{
    let mut words = cause;
    append(&mut words, b"; docs/SERIAL.md says more");
    words
}

/// A cause in words.
pub fn cause_words(cause: Cause) -> CauseText
    ensures { result.items ≡ cause_words cause }
{
    match cause {
        Cause::System(number) => system_words(b"", number),
        Cause::Unnumbered => bounded_text(b"an error of the system"),
        Cause::Closed => bounded_text(b"closed by the printer"),
        Cause::TakesNothing => bounded_text(b"the connection takes no more bytes"),
        Cause::ReadsNothing => bounded_text(b"the printer doesn't read what is sent"),
        Cause::NeverSilent => bounded_text(b"the printer speaks and doesn't start"),
        Cause::NoAddress => bounded_text(b"its name has no address"),
        Cause::NoDevice(number) => {
            device_words(system_words(b"the device can't be opened: ", number))
        }
        Cause::NoTerminal => device_words(bounded_text(b"it is no serial device")),
        Cause::Taken => device_words(bounded_text(b"another program uses the device")),
        Cause::NoStty => device_words(bounded_text(
            b"the program stty (of coreutils) can't be run",
        )),
        Cause::Refused => device_words(bounded_text(
            b"stty refused the line's settings, as a speed that it doesn't know",
        )),
        Cause::Blocking => device_words(bounded_text(b"the device can't be set non-blocking")),
    }
}
