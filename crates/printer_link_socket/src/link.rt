//! A link to a printer over a port.
ghost use Rattle.std.specs.Prelude.{◌≡◌, ◌+◌, ◌≤◌, ◌↔◌, ◌⊎◌, ◌||◌, ◌++◌, [], length, true, false, is_some, Some, None, Ok, IfSome, IfOk, OnOk, OnErr, IsErr, IsOk, IsErrOf, ⊤};
ghost use Rattle.std.specs.List.{list_any, before_first, after_first};
ghost use Rattle.octo_outside.specs.Memory.{one_more};
ghost use Rattle.octo_outside.specs.Recorded.{Counts};
ghost use Rattle.printer_link_socket.specs.Address.{names_port};
ghost use Rattle.printer_link_socket.specs.Lines.{cut, ends_line};
ghost use Rattle.printer_link_socket.specs.declared.unsent.TheConstants.{ROOM};
ghost use Rattle.printer_link_socket.specs.Sent.{HasRoom, Joins, TookFirst};
ghost use Rattle.printer_link_socket.specs.Heard.{HeardLater};
ghost use Rattle.printer_link_socket.specs.Waiting.{Starts, is_connecting, no_lines, waits_for};
ghost use Rattle.printer_link.specs.declared.link.Heard.TheVariants as heard;
ghost use Rattle.printer_link.specs.declared.link.LinkFault.TheVariants as fault;

use crate::address::names_port;
use crate::boot::Stage;
use crate::dial::{Dial, Opened};
use crate::stream_link::StreamLink;
use crate::waiting::{boot_of, stage_from};
use byte_text::{Line, MOST_LINE_BYTES, ReplyLine};
use octo_outside_bell::Ear;
use printer_link::{Heard, Link, LinkFault};
use printer_link_cause::Cause;

/// A link to ports of these kinds: `HOST:PORT`, over TCP; `unix:PATH`, over a Unix socket; `tty:PATH:SPEED` and `tty:PATH`, over
/// a serial device. It does not record its history.
///
/// A dial waits for the peer for a short time. If the peer may accept the connection yet, the calls of `recv` go on with it, and find
/// nothing; what is sent waits. If it can't be made after all, such a call fails.
///
/// A call of `recv` waits for some milliseconds, and a reply that comes in, or a ring of the bell, ends the wait at once. Lines that are
/// sent are written when `recv` finds no reply that has been read, so that those of one turn go out together. What the stream doesn't take
/// then is tried again by the following calls. It fails if that write fails, if the stream has taken nothing for 16 seconds, or if it finds
/// that the peer has closed, even within a line.
///
/// So a printer that doesn't read makes the link wait, and no call: none waits for longer than a `recv` that finds nothing, but that
/// `hang_up` offers the last lines for up to 80 milliseconds.
///
/// The wait lasts 10 milliseconds if it has an ear. Without one it is a millisecond over a serial device, and over a socket as short as
/// the system makes a read that is to wait for a millisecond: up to 20. Then a reply costs one call of the system, and not two.
///
/// A printer may restart when its line is opened. So over a serial device, and over a socket if a boot time is given, the link first
/// waits for the printer: until its line `start`, or until it had its boot time and was silent for 2.5 seconds. Till then
/// `recv` finds nothing and drops what comes, and what is sent waits. It fails if a printer speaks for a minute more than its boot time.
#[derive(Drop)]
pub struct PortLink<D: Dial + Drop> {
    pub(crate) ports: D,
    boot_ms: Option<u16>,
    pub(crate) line: StreamLink<D::Stream>,
    pub(crate) boot: Option<Stage>,
    up: bool,
    faults: u64,
}

impl<D: Dial + Drop> PortLink<D> {
    /// A link to these ports that isn't connected yet, and the milliseconds that a printer may take to start.
    /// `None` means 3,000 for a serial device, and 0 for a socket.
    pub fn new(ports: D, boot_ms: Option<u16>) -> Self
        ensures down { result.up ≡ false }
        ensures faults { result.faults ≡ 0 }
        ensures boot { result.boot_ms ≡ boot_ms }
    {
        PortLink::with_ear(ports, boot_ms, Ear::deaf())
    }

    /// The same, and a ring that this ear hears ends a wait of `recv`, which doesn't take it.
    pub fn with_ear(ports: D, boot_ms: Option<u16>, ear: Ear) -> Self
        ensures down { result.up ≡ false }
        ensures faults { result.faults ≡ 0 }
        ensures boot { result.boot_ms ≡ boot_ms }
    {
        PortLink {
            ports,
            boot_ms,
            line: StreamLink::closed(ear),
            boot: None,
            up: false,
            faults: 0,
        }
    }

    /// Whether a link is made.
    pub fn is_up(&self) -> bool
        ensures { result ≡ self.now.up }
    {
        self.up
    }

    // Goes on with a stream of which nothing was read or written.
    fn begin(&mut self, stream: D::Stream)
        ensures unsent { self.new.line.unsent ≡ [] }
        ensures lines { self.new.line.lines ≡ no_lines }
        ensures boot { self.new.boot_ms ≡ self.old.boot_ms }
        ensures faults { self.new.faults ≡ self.old.faults }
    {
        let reads_wait = self.ports.reads_wait(&stream);
        self.line.begin(stream, reads_wait);
    }

    // Closes the link and counts the failure.
    fn fail(&mut self) -> LinkFault
        ensures fault { result ≡ fault.Failed }
        ensures down { self.new.up ≡ false }
        ensures closed { self.new.line.stream ≡ None }
        ensures counts { Counts ⊤ self.old.faults self.new.faults }
        ensures one_fault { self.new.faults ≡ one_more self.old.faults }
        ensures lines { self.new.line.lines ≡ self.old.line.lines }
        ensures ready { self.new.boot ≡ None }
        ensures boot { self.new.boot_ms ≡ self.old.boot_ms }
        ensures cause { self.new.line.cause ≡ self.old.line.cause }
    {
        self.line.stream = None;
        self.boot = None;
        self.up = false;
        self.faults = self.faults.saturating_add(1);
        LinkFault::Failed
    }
}

impl<D: Dial + Drop> Link for PortLink<D> {
    ghost state = { λ l. record {
      kind = record {
        slots = 4;
        oks = record { numbered = false; lost = false };
        prompt = false;
        listed = names_port;
      };
      past = None;
      calls = None;
      up = l.up;
      faults = l.faults;
    } };

    /// Connects to the port of that name. Fails if its stream can't be opened, and with `NoPort` if the name isn't a port's.
    fn dial(&mut self, name: &str) -> Result<(), LinkFault>
        requires { self.old.up ≡ false }

        // Nothing of a former connection is left.
        ensures unsent { OnOk result (self.new.line.unsent ≡ []) }
        ensures lines { OnOk result (self.new.line.lines ≡ no_lines) }

        // Whether the link waits for the printer first.
        ensures wait { OnOk result
            (is_some self.new.boot
            ≡ (is_connecting self.new.boot || waits_for self.old.boot_ms name.now)) }
        ensures boot { self.new.boot_ms ≡ self.old.boot_ms }

        ensures no_port { IsErrOf result fault.NoPort ↔ (names_port name.now ≡ false) }
        ensures up { OnOk result (self.new.up ≡ true) }
        ensures down { OnErr result (self.new.up ≡ false) }
        ensures counts { Counts (IsErrOf result fault.Failed) self.old.faults self.new.faults }
        ensures one_fault { IsErrOf result fault.Failed
            → self.new.faults ≡ one_more self.old.faults }
        ensures steady { OnOk result (self.new.faults ≡ self.old.faults) }
        ensures none { IsErrOf result fault.NoPort → self.new.faults ≡ self.old.faults }
        ensures cause { IsErrOf result fault.Failed → is_some self.new.line.cause ≡ true }
    {
        if !names_port(name) {
            self.ports.refuse(name);
            return Err(LinkFault::NoPort);
        }
        let opened = match self.ports.open(name) {
            Ok(opened) => opened,
            Err(cause) => {
                self.line.cause = Some(cause);
                return Err(self.fail());
            }
        };
        match opened {
            Opened::Ready(stream) => {
                self.begin(stream);
                self.boot = stage_from(self.ports.now(), self.boot_ms, name);
            }
            Opened::Pending(stream) => {
                self.begin(stream);
                self.boot = Some(Stage::Connecting(boot_of(self.boot_ms, name)));
            }
        }
        self.up = true;
        Ok(())
    }

    fn send(&mut self, line: &Line) -> Result<(), LinkFault>
        requires open { self.old.up ≡ true }
        requires short { length line.now.items ≤ MOST_LINE_BYTES }
        ensures joined { OnOk result (Joins D.Stream.contents D.Stream.room line.now.items
            self.old.line.unsent self.new.line.unsent self.old.line.stream self.new.line.stream) }
        ensures room { length self.old.line.unsent + length line.now.items + 1 ≤ ROOM
            → IsOk result }
        ensures roomy { self.old.boot ≡ None
            → HasRoom D.Stream.room self.old.line.stream self.old.line.unsent → IsOk result }
        ensures lines { self.new.line.lines ≡ self.old.line.lines }

        // While the link waits for the printer, nothing is written.
        ensures held { is_some self.old.boot ≡ true
            → OnOk result ((self.new.line.stream ≡ self.old.line.stream)
            × (self.new.boot ≡ self.old.boot)) }
        ensures ready { self.old.boot ≡ None → self.new.boot ≡ None }
        ensures boot { self.new.boot_ms ≡ self.old.boot_ms }

        ensures no_port { IsErrOf result fault.NoPort → ⊥ }
        ensures up { OnOk result (self.new.up ≡ true) }
        ensures down { OnErr result (self.new.up ≡ false) }
        ensures closed { OnErr result (self.new.line.stream ≡ None) }
        ensures counts { Counts (IsErr result) self.old.faults self.new.faults }
        ensures one_fault { OnErr result (self.new.faults ≡ one_more self.old.faults) }
        ensures steady { OnOk result (self.new.faults ≡ self.old.faults) }
        ensures cause { OnErr result (is_some self.new.line.cause ≡ true) }
        ensures same { OnOk result (self.new.line.cause ≡ self.old.line.cause) }
    {
        if self.line.gather(line, self.boot.is_some()) {
            return Ok(());
        }
        Err(self.fail())
    }

    fn recv(&mut self, into: &mut ReplyLine) -> Result<Heard, LinkFault>
        requires { self.old.up ≡ true }

        // While the link waits for the printer it finds nothing, and what was sent waits.
        ensures waiting { is_some self.old.boot ≡ true → IfOk result (λ got. got ≡ heard.Nothing) }
        ensures held { is_some self.old.boot ≡ true
            → OnOk result (self.new.line.unsent ≡ self.old.line.unsent) }

        // After the wait nothing is kept of what was read before the line `start`, or before the silence.
        ensures over { is_some self.old.boot ≡ true → OnOk result (self.new.boot ≡ None
            → Starts self.old.line.lines self.new.line.lines
            ⊎ (self.new.line.lines ≡ no_lines)) }
        ensures ready { self.old.boot ≡ None → self.new.boot ≡ None }
        ensures boot { self.new.boot_ms ≡ self.old.boot_ms }

        // A reply that waits is returned at once.
        ensures at_once { self.old.boot ≡ None
            → list_any ends_line self.old.line.lines.waiting ≡ true → result ≡ Ok heard.Line }
        ensures line { self.old.boot ≡ None
            → list_any ends_line self.old.line.lines.waiting ≡ true
            → into.new.items ≡ cut (self.old.line.lines.begun
            ++ before_first ends_line self.old.line.lines.waiting) }
        ensures after { self.old.boot ≡ None
            → list_any ends_line self.old.line.lines.waiting ≡ true
            → self.new.line.lines ≡ record self.old.line.lines {
              begun = [];
              waiting = after_first ends_line self.old.line.lines.waiting;
            } }
        ensures still { self.old.boot ≡ None
            → list_any ends_line self.old.line.lines.waiting ≡ true
            → (self.new.line.unsent ≡ self.old.line.unsent)
            × (self.new.line.stream ≡ self.old.line.stream) }

        // If no reply waited and the call didn't fail, what was unsent was offered to the stream before more was read: what it didn't take
        // is left, and over a stream with room for all nothing is.
        ensures took { self.old.boot ≡ None
            → list_any ends_line self.old.line.lines.waiting ≡ false
            → OnOk result (TookFirst D.Stream.contents D.Stream.room
            self.old.line.stream self.old.line.unsent self.new.line.unsent) }
        ensures emptied { self.old.boot ≡ None
            → list_any ends_line self.old.line.lines.waiting ≡ false
            → HasRoom D.Stream.room self.old.line.stream self.old.line.unsent
            → OnOk result (self.new.line.unsent ≡ []) }

        // And the line, if one has ended then, is made of what had been read and what came.
        ensures later { self.old.boot ≡ None
            → list_any ends_line self.old.line.lines.waiting ≡ false → IfOk result (λ got.
            HeardLater D.Stream.contents D.Stream.remaining D.Stream.room
            self.old.line.stream self.new.line.stream self.old.line.unsent self.new.line.unsent
            self.old.line.lines got into.new.items self.new.line.lines) }

        // And its last reading didn't find the end of the stream, as when the peer has closed.
        ensures peer { self.old.boot ≡ None
            → list_any ends_line self.old.line.lines.waiting ≡ false
            → OnOk result (self.new.line.lines.end ≡ None) }

        ensures no_port { IsErrOf result fault.NoPort → ⊥ }
        ensures up { OnOk result (self.new.up ≡ true) }
        ensures down { OnErr result (self.new.up ≡ false) }
        ensures closed { OnErr result (self.new.line.stream ≡ None) }
        ensures counts { Counts (IsErr result) self.old.faults self.new.faults }
        ensures one_fault { OnErr result (self.new.faults ≡ one_more self.old.faults) }
        ensures steady { OnOk result (self.new.faults ≡ self.old.faults) }
        ensures cause { OnErr result (is_some self.new.line.cause ≡ true) }
        ensures same { OnOk result (self.new.line.cause ≡ self.old.line.cause) }
    {
        match self.boot {
            Some(stage) => {
                if self.wait(stage) {
                    return Ok(Heard::Nothing);
                }
            }
            None => {
                let now = self.ports.now();
                if let Some(got) = self.line.hear(into, now) {
                    return Ok(got);
                }
            }
        }
        Err(self.fail())
    }

    /// Closes the link. What was sent and isn't written yet is offered first, for up to 80 milliseconds, unless the printer may still be starting.
    fn hang_up(&mut self)
        ensures closed { self.new.line.stream ≡ None }
        ensures down { self.new.up ≡ false }
        ensures faults { self.new.faults ≡ self.old.faults }
        ensures boot { self.new.boot_ms ≡ self.old.boot_ms }
    {
        self.up = false;
        if self.boot.is_none() {
            self.line.write_last();
        }
        self.boot = None;
        if let Some(stream) = self.line.stream.take() {
            self.ports.close(stream);
        }
    }
}
