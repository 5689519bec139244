//! A door whose refusals are logged.
ghost use Rattle.std.specs.Prelude.{◌≡◌, ◌<◌, ◌≤◌, ◌+◌, ◌*◌, ◌++◌, length};
ghost use Rattle.std.specs.List.{prefix_len};
ghost use Rattle.octo_log.specs.Lines.{line_of};
ghost use Rattle.octo_log.specs.Refused.{after_method, cause_words, door_words, has_route, is_capital, is_grave, is_logged, is_look, is_refusal, is_shown, refusal_line, refusal_words, route, method_of, shown_front};
ghost use Rattle.octo_log.specs.Logged.{Logs};
ghost use Rattle.octo_log.specs.declared.conn.TheConstants.{MOST_ASKED_BYTES, MOST_CAUSE_BYTES};
ghost use Rattle.octo_log.specs.declared.line.TheConstants.{MOST_LOG_BYTES};

use crate::conn::LoggedConn;
use crate::line::{LogLine, log_line};
use byte_text::{after, append, bounded_text};
use octo_outside::{Failed, Sink};
use octo_outside_bell::Bell;
use octo_outside_doors::{Door, Knock};

/// A door with a log: a line says of a message that is refused, with a status from 400 on, the status, the message's method and path,
/// and why. Of messages that only look at something it says so if the key names nobody or may not look, and if the host failed. A line
/// says that the door failed.
#[derive(Drop)]
pub struct LoggedDoor<D: Door + Drop, G: Sink + Drop> {
    door: D,
    log: G,
}

// Whether a byte of a path is shown.
fn is_shown(byte: u8) -> bool
    ensures { result ≡ is_shown byte }
{
    byte > 32 && byte < 127 && byte != b'?'
}

fn is_capital(byte: u8) -> bool
    ensures { result ≡ is_capital byte }
{
    byte > 64 && byte < 91
}

// Whether a status is a refusal.
fn is_refusal(status: &[u8]) -> bool
    ensures { result ≡ is_refusal status.now }
{
    status.starts_with(b"4") || status.starts_with(b"5")
}

// Whether a refusal is logged of every message.
fn is_grave(status: &[u8]) -> bool
    ensures { result ≡ is_grave status.now }
{
    status.starts_with(b"401") || status.starts_with(b"403") || status.starts_with(b"5")
}

// Whether a message only looks at something.
fn is_look(asked: &[u8]) -> bool
    ensures { result ≡ is_look asked.now }
{
    asked.starts_with(b"GET ") || asked.starts_with(b"HEAD ")
}

// Whether a connection has a line.
fn is_logged(asked: &[u8], status: &[u8]) -> bool
    ensures { result ≡ is_logged asked.now status.now }
{
    is_refusal(status) && (is_grave(status) || !is_look(asked))
}

// How many bytes of a path are shown.
fn shown_length(path: &[u8]) -> usize
    ensures value { result ≡ prefix_len is_shown path.now }
    ensures fits { result ≤ length path.now }
{
    path.iter().take_while(|byte| is_shown(**byte)).count()
}

// How many capital letters are at the front.
fn capitals_in_front(asked: &[u8]) -> usize
    ensures value { result ≡ prefix_len is_capital asked.now }
    ensures fits { result ≤ length asked.now }
{
    asked.iter().take_while(|byte| is_capital(**byte)).count()
}

// Whether a message begins with a method and a path.
fn has_route(asked: &[u8]) -> bool
    ensures { result ≡ has_route asked.now }
{
    asked[capitals_in_front(asked)..].starts_with(b" /")
}

// The method of a message.
fn method_of(asked: &[u8]) -> &[u8]
    ensures value { result.now ≡ method_of asked.now }
    ensures short { length result.now ≤ length asked.now }
{
    &asked[..capitals_in_front(asked)]
}

// What comes after the method and a space.
fn after_method(asked: &[u8]) -> &[u8]
    ensures value { result.now ≡ after_method asked.now }
    ensures short { length result.now ≤ length asked.now }
{
    after(asked, capitals_in_front(asked) + 1)
}

// The bytes of a path that are shown.
fn shown_front(path: &[u8]) -> &[u8]
    ensures value { result.now ≡ shown_front path.now }
    ensures short { length result.now ≤ length path.now }
{
    &path[..shown_length(path)]
}

// What a message asks.
fn route(asked: &[u8]) -> LogLine
    requires { length asked.now ≤ MOST_ASKED_BYTES }
    ensures words { result.items ≡ route asked.now }
    ensures short { length result.items ≤ 2 * MOST_ASKED_BYTES + 1 }
{
    if !has_route(asked) {
        return bounded_text(b"no HTTP");
    }
    let mut words = bounded_text(method_of(asked));
    append(&mut words, b" ");
    append(&mut words, shown_front(after_method(asked)));
    words
}

// Adds why a message was refused.
fn append_cause(words: &mut LogLine, cause: &[u8])
    requires cause { length cause.now ≤ MOST_CAUSE_BYTES }
    requires room { length words.old.items ≤ 220 }
    ensures words { words.new.items ≡ words.old.items ++ cause_words cause.now }
    ensures short { length words.new.items < MOST_LOG_BYTES }
{
    if !cause.is_empty() {
        append(words, b": ");
        append(words, cause);
    }
}

// The words of a refusal.
fn refusal_words(asked: &[u8], status: &[u8], cause: &[u8]) -> LogLine
    requires asked { length asked.now ≤ MOST_ASKED_BYTES }
    requires status { length status.now ≤ 3 }
    requires cause { length cause.now ≤ MOST_CAUSE_BYTES }
    ensures words { result.items ≡ refusal_words asked.now status.now cause.now }
    ensures short { length result.items < MOST_LOG_BYTES }
{
    let mut words = bounded_text(b"refused: ");
    append(&mut words, status);
    append(&mut words, b" ");
    append(&mut words, route(asked).as_slice());
    append_cause(&mut words, cause);
    words
}

// Logs a connection's refusal, if it has a line.
fn log_refusal<G: Sink>(log: &mut G, asked: &[u8], status: &[u8], cause: &[u8])
    requires asked { length asked.now ≤ MOST_ASKED_BYTES }
    requires status { length status.now ≤ 3 }
    requires cause { length cause.now ≤ MOST_CAUSE_BYTES }
    ensures { Logs (refusal_line asked.now status.now cause.now)
        (G.written log.old) (G.written log.new) (G.faults log.old) (G.faults log.new) }
{
    if is_logged(asked, status) {
        log_line(log, refusal_words(asked, status, cause).as_slice());
    }
}

// Logs a call that failed.
fn log_failure<G: Sink>(log: &mut G)
    ensures { Logs (line_of door_words)
        (G.written log.old) (G.written log.new) (G.faults log.old) (G.faults log.new) }
{
    log_line(log, b"serving: a door failed");
}

impl<D: Door + Drop, G: Sink + Drop> LoggedDoor<D, G> {
    /// A door with its log.
    pub fn new(door: D, log: G) -> Self
        ensures { result ≡ record { door = door; log = log } }
    {
        LoggedDoor { door, log }
    }

    /// The door.
    pub fn door(&self) -> &D
        ensures { result.now ≡ self.now.door }
    {
        &self.door
    }

    /// The log.
    pub fn log(&self) -> &G
        ensures { result.now ≡ self.now.log }
    {
        &self.log
    }
}

impl<D: Door + Drop, G: Sink + Drop> Door for LoggedDoor<D, G> {
    ghost use Rattle.std.specs.Prelude.{is_err};
    ghost use Rattle.octo_outside_doors.specs.Doors.{Accepts, Finishes};
    ghost use Rattle.octo_log.specs.Logged.{Logs};
    ghost use Rattle.octo_log.specs.Refused.{door_line, refusal_line};

    type Conn = LoggedConn<D::Conn>;

    ghost state = { λ l. D.state l.door };

    fn accept(&mut self) -> Result<Knock<LoggedConn<D::Conn>>, Failed>
        ensures accepts { Accepts (λ c. D.Conn.state c.conn) (D.state self.old.door) result
            (D.state self.new.door) }

        ensures logged { Logs (door_line (is_err result))
            (G.written self.old.log) (G.written self.new.log)
            (G.faults self.old.log) (G.faults self.new.log) }
    {
        match self.door.accept() {
            Ok(Knock::Conn(conn)) => Ok(Knock::Conn(LoggedConn::new(conn))),
            Ok(Knock::Quiet) => Ok(Knock::Quiet),
            Ok(Knock::Ended) => Ok(Knock::Ended),
            Err(Failed) => {
                log_failure(&mut self.log);
                Err(Failed)
            }
        }
    }

    fn finish(&mut self, conn: LoggedConn<D::Conn>)
        ensures finishes { Finishes (D.state self.old.door) (D.Conn.state conn.conn)
            (D.state self.new.door) }

        ensures logged { Logs
            (refusal_line conn.asked.items conn.status.items conn.cause.items)
            (G.written self.old.log) (G.written self.new.log)
            (G.faults self.old.log) (G.faults self.new.log) }
    {
        let LoggedConn {
            conn,
            asked,
            status,
            cause,
        } = conn;
        self.door.finish(conn);
        log_refusal(
            &mut self.log,
            asked.as_slice(),
            status.as_slice(),
            cause.as_slice(),
        );
    }

    fn bell(&self) -> Bell {
        self.door.bell()
    }
}
