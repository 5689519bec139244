//! The words of the events of a link.
ghost use Rattle.std.specs.Prelude.{◌≡◌, ◌<◌, ◌≤◌, ◌++◌, length, None, Err};
ghost use Rattle.arrayvec.specs.ArrayVec.{array_vec_len};
ghost use Rattle.octo_log.specs.declared.line.TheConstants.{MOST_LOG_BYTES};
ghost use Rattle.octo_log_link.specs.Lines.{asks_again, dial_words, has_no_link, loss_words, made_words, said_words, short, unmade_words, why};
ghost use Rattle.printer_link.specs.declared.link.LinkFault.TheVariants as fault;

use arrayvec::ArrayVec;
use byte_text::{append, bounded_text};
use octo_log::MOST_LOG_BYTES;
use printer_link::LinkFault;
use printer_link_cause::{Cause, cause_words};

// The words of a line.
type Words = ArrayVec<u8, MOST_LOG_BYTES>;

// How many bytes of a port's name and of an error are shown.
const SHOWN: usize = 100;

// The name of a port, as far as it is shown.
pub(crate) type PortText = ArrayVec<u8, SHOWN>;

// The first bytes of a text that may be long.
fn short(name: &[u8]) -> &[u8]
    ensures value { result.now ≡ short name.now }
    ensures short { length result.now ≤ 100 }
{
    &name[..SHOWN.min(name.len())]
}

// The name of a port, as far as it is shown.
pub(crate) fn short_port(port: &str) -> PortText
    ensures { result.items ≡ short port.now }
{
    bounded_text(short(port.as_bytes()))
}

// Adds why a call failed, if the link knows it.
fn append_why(words: &mut Words, cause: Option<Cause>)
    requires { array_vec_len words.old ≤ 200 }
    ensures words { words.new.items ≡ words.old.items ++ why cause }
    ensures short { array_vec_len words.new < MOST_LOG_BYTES }
{
    if let Some(cause) = cause {
        append(words, b": ");
        append(words, cause_words(cause).as_slice());
    }
}

// A link to a port that is made.
pub(crate) fn made_words(port: &[u8]) -> Words
    ensures words { result.items ≡ made_words port.now }
    ensures short { length result.items < MOST_LOG_BYTES }
{
    let mut words = bounded_text(b"printer: connected to ");
    append(&mut words, short(port));
    words
}

// A link to a port that can't be made.
pub(crate) fn unmade_words(port: &[u8], cause: Option<Cause>) -> Words
    ensures words { result.items ≡ unmade_words port.now cause }
    ensures short { length result.items < MOST_LOG_BYTES }
{
    let mut words = bounded_text(b"printer: no link to ");
    append(&mut words, short(port));
    append_why(&mut words, cause);
    words
}

// A port that isn't listed.
fn unlisted_words(port: &[u8]) -> Words
    ensures words { result.items ≡ dial_words port.now None (Err fault.NoPort) }
    ensures short { length result.items < MOST_LOG_BYTES }
{
    let mut words = bounded_text(b"printer: no port ");
    append(&mut words, short(port));
    words
}

// What came of making a link to a port.
pub(crate) fn dial_words(port: &str, cause: Option<Cause>, made: &Result<(), LinkFault>) -> Words
    ensures words { result.items ≡ dial_words port.now cause made.now }
    ensures short { length result.items < MOST_LOG_BYTES }
{
    match made {
        Ok(()) => made_words(port.as_bytes()),
        Err(LinkFault::NoPort) => unlisted_words(port.as_bytes()),
        Err(LinkFault::Failed) => unmade_words(port.as_bytes(), cause),
    }
}

// A link that failed.
pub(crate) fn loss_words(cause: Option<Cause>) -> Words
    ensures words { result.items ≡ loss_words cause }
    ensures short { length result.items < MOST_LOG_BYTES }
{
    let mut words = bounded_text(b"printer: the link failed");
    append_why(&mut words, cause);
    words
}

// Whether a call found that there is no link to a listed port.
pub(crate) fn has_no_link(made: &Result<(), LinkFault>) -> bool
    ensures { result ≡ has_no_link made.now }
{
    match made {
        Err(LinkFault::Failed) => true,
        Ok(()) | Err(LinkFault::NoPort) => false,
    }
}

// Whether an error only asks for a line again. Source: Marlin's queue.cpp.
pub(crate) fn asks_again(text: &[u8]) -> bool
    ensures { result ≡ asks_again text.now }
{
    text.starts_with(b"Error:checksum mismatch")
        || text.starts_with(b"Error:Line Number is not")
        || text.starts_with(b"Error:No Checksum")
        || text.starts_with(b"Error:No Line Number")
}

// An error that the printer reports.
pub(crate) fn said_words(text: &[u8]) -> Words
    ensures words { result.items ≡ said_words text.now }
    ensures short { length result.items < MOST_LOG_BYTES }
{
    let mut words = bounded_text(b"printer: ");
    append(&mut words, short(text));
    words
}
