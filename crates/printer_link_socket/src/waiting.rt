//! What a link does until it can be used: it waits for its peer, and then for the printer.
ghost use Rattle.std.specs.Prelude.{◌≡◌, ◌⊎◌, true, false, is_some, None};
ghost use Rattle.printer_link_socket.specs.Waiting.{Starts, boot_of, is_connecting, no_lines, waits_for};

use crate::address::names_device;
use crate::boot::{Boot, Stage};
use crate::dial::{Dial, Opened};
use crate::link::PortLink;
use crate::stream_link::Skipped;
use printer_link_cause::Cause;

// How long a printer at a serial device may take to start by default, in milliseconds.
const TTY_BOOT: u16 = 3_000;

// How long a printer at that port may take to start, in milliseconds, if the settings say this.
pub(crate) fn boot_of(boot_ms: Option<u16>, name: &str) -> u16
    ensures { result ≡ boot_of boot_ms name.now }
{
    match boot_ms {
        Some(boot_ms) => boot_ms,
        None => { if names_device(name) { TTY_BOOT } else { 0 } }
    }
}

// The wait for the printer at that port, if there is one, from this moment on.
pub(crate) fn stage_from(now: u64, boot_ms: Option<u16>, name: &str) -> Option<Stage>
    ensures waits { is_some result ≡ waits_for boot_ms name.now }
    ensures made { is_connecting result ≡ false }
{
    let boot_ms = boot_of(boot_ms, name);
    if names_device(name) || boot_ms != 0 {
        return Some(Stage::Booting(Boot::new(now, boot_ms)));
    }
    None
}

// The wait for a printer over a connection that is made, from this moment on, if it may be starting.
fn stage_of_boot(now: u64, boot_ms: u16) -> Option<Stage> {
    if boot_ms == 0 {
        return None;
    }
    Some(Stage::Booting(Boot::new(now, boot_ms)))
}

impl<D: Dial + Drop> PortLink<D> {
    // Takes a step of what the link waits for. `false` if it failed, and it keeps why.
    pub(crate) fn wait(&mut self, stage: Stage) -> bool
        requires { is_some self.old.boot ≡ true }
        ensures over { result ≡ true → self.new.boot ≡ None
            → Starts self.old.line.lines self.new.line.lines ⊎ (self.new.line.lines ≡ no_lines) }
        ensures unsent { self.new.line.unsent ≡ self.old.line.unsent }
        ensures up { self.new.up ≡ self.old.up }
        ensures faults { self.new.faults ≡ self.old.faults }
        ensures boot { self.new.boot_ms ≡ self.old.boot_ms }
        ensures cause { result ≡ false → is_some self.new.line.cause ≡ true }
        ensures same { result ≡ true → self.new.line.cause ≡ self.old.line.cause }
    {
        match stage {
            Stage::Connecting(boot_ms) => self.wait_for_peer(boot_ms),
            Stage::Booting(boot) => self.wait_for_printer(boot),
        }
    }

    // Goes on with the connection. `false` if it can't be made, and the link keeps why.
    fn wait_for_peer(&mut self, boot_ms: u16) -> bool
        requires { is_some self.old.boot ≡ true }
        ensures over { result ≡ true → self.new.boot ≡ None → self.new.line.lines ≡ no_lines }
        ensures unsent { self.new.line.unsent ≡ self.old.line.unsent }
        ensures up { self.new.up ≡ self.old.up }
        ensures faults { self.new.faults ≡ self.old.faults }
        ensures boot { self.new.boot_ms ≡ self.old.boot_ms }
        ensures cause { result ≡ false → is_some self.new.line.cause ≡ true }
        ensures same { result ≡ true → self.new.line.cause ≡ self.old.line.cause }
    {
        let Some(stream) = self.line.stream.take() else {
            self.line.cause = Some(Cause::Closed);
            return false;
        };
        match self.ports.go_on(stream) {
            Ok(Opened::Ready(stream)) => {
                let reads_wait = self.ports.reads_wait(&stream);
                self.line.go_on(stream, reads_wait);
                self.boot = stage_of_boot(self.ports.now(), boot_ms);
                true
            }
            Ok(Opened::Pending(stream)) => {
                self.line.stream = Some(stream);
                true
            }
            Err(cause) => {
                self.line.cause = Some(cause);
                false
            }
        }
    }

    // Takes a step of the wait for the printer: drops a line that came, or reads more. `false` if the link failed, and it keeps why.
    fn wait_for_printer(&mut self, boot: Boot) -> bool
        requires { is_some self.old.boot ≡ true }
        ensures over { result ≡ true → self.new.boot ≡ None
            → Starts self.old.line.lines self.new.line.lines ⊎ (self.new.line.lines ≡ no_lines) }
        ensures unsent { self.new.line.unsent ≡ self.old.line.unsent }
        ensures up { self.new.up ≡ self.old.up }
        ensures faults { self.new.faults ≡ self.old.faults }
        ensures boot { self.new.boot_ms ≡ self.old.boot_ms }
        ensures cause { result ≡ false → is_some self.new.line.cause ≡ true }
        ensures same { result ≡ true → self.new.line.cause ≡ self.old.line.cause }
    {
        let Some(skipped) = self.line.skip() else {
            return false;
        };
        let now = self.ports.now();
        match skipped {
            Skipped::Start => {
                self.boot = None;
                true
            }
            Skipped::Speech => {
                if boot.is_hopeless(now) {
                    self.line.cause = Some(Cause::NeverSilent);
                    return false;
                }
                self.boot = Some(Stage::Booting(boot.after_speech(now)));
                true
            }
            Skipped::Nothing => {
                if !boot.is_over(now) {
                    return true;
                }
                self.line.forget_lines();
                self.boot = None;
                true
            }
        }
    }
}
