//! A stream over a serial device.
ghost use Rattle.std.specs.Prelude.{◌≡◌};
ghost use Rattle.std.specs.IoError.{raw_os_error};
ghost use Rattle.printer_link_ports.specs.Ports.{not_opened};

use crate::room::wait_for_room;
use printer_link_cause::Cause;
use printer_link_socket::Device;
use std::alloc::Global;
use std::fs::{File, OpenOptions};
use std::io;
use std::io::{ErrorKind, IsTerminal, Read, Write};
use std::os::fd::{AsRawFd, RawFd};
use std::process::{Command, Processes, Stdio};
use std::rt::Files;

// ENODEV.
const NO_DEVICE: i32 = 19;

// How long a write waits for room, in milliseconds.
const WAIT: u16 = 1;

/// A serial device that is open, locked and set. A read returns what has come, and a write that finds no room waits for
/// about a millisecond.
#[derive(Drop)]
pub struct TtyStream<F: Drop> {
    file: F,
}

// The cause that a device's file can't be opened.
fn not_opened(error: &io::Error) -> Cause
    ensures { result ≡ not_opened (raw_os_error error.now) }
{
    match error.raw_os_error() {
        Some(number) => Cause::NoDevice(number.unsigned_abs()),
        None => Cause::Unnumbered,
    }
}

// Sets the line: raw, 8 data bits, no parity, one stop bit, no echo, no flow control, no hang-up at a close, and this speed if one is given.
// `min 1`, which `raw` sets, makes a read of no byte the end of the line.
fn set_line<R: Processes>(rt: &R, alloc: Global, device: &Device<'_>) -> io::Result<bool> {
    let mut stty = Command::new(alloc, "stty")?;
    stty.arg("-F")?.arg(device.path)?;
    if let Some(speed) = device.speed {
        let text = format!(in alloc; "{speed}")?;
        stty.arg(text.as_str())?;
    }
    stty.args([
        "raw", "-echo", "-hupcl", "clocal", "cs8", "-cstopb", "-parenb", "-crtscts",
    ])?;
    stty.stdin(Stdio::null()).stdout(Stdio::null());
    Ok(stty.status(rt)?.success())
}

impl TtyStream<File> {
    /// Opens a device: locks its file, so that no second host uses it, and then sets the line. Or it says why the device can't be used.
    pub fn open<R: Files<File = File> + Processes>(
        rt: &R,
        alloc: Global,
        device: &Device<'_>,
    ) -> Result<Self, Cause> {
        let opened = OpenOptions::new()
            .read(true)
            .write(true)
            .open(rt, device.path);
        let file = match opened {
            Ok(file) => file,
            Err(error) => return Err(not_opened(&error)),
        };
        if !file.is_terminal() {
            return Err(Cause::NoTerminal);
        }
        if file.try_lock().is_err() {
            return Err(Cause::Taken);
        }
        match set_line(rt, alloc, device) {
            Ok(true) => {}
            Ok(false) => return Err(Cause::Refused),
            Err(_) => return Err(Cause::NoStty),
        }
        if os::set_nonblocking(file.as_raw_fd(), true) != 0 {
            return Err(Cause::Blocking);
        }
        Ok(TtyStream { file })
    }
}

impl<F: Read + Drop> Read for TtyStream<F> {
    ghost remaining = { λ t. F.remaining t.file };

    // A device that is gone has no more bytes.
    #[tactic(auto, using(printer_link_socket::proofs::Heard::consumes_keeps))]
    fn read(&mut self, into: &mut [u8]) -> io::Result<usize> {
        match self.file.read(into) {
            Ok(0) => Err(io::Error::from_raw_os_error(NO_DEVICE)),
            read => read,
        }
    }
}

impl<F: Write + AsRawFd + Drop> Write for TtyStream<F> {
    ghost contents = { λ t. F.contents t.file };

    // A line takes no more than the system holds of it; then the write waits for room, and fails as one that may be tried again.
    fn write(&mut self, bytes: &[u8]) -> io::Result<usize> {
        let written = self.file.write(bytes);
        if let Err(error) = &written {
            if matches!(error.kind(), ErrorKind::WouldBlock) {
                wait_for_room(&self.file, WAIT);
            }
        }
        written
    }

    fn flush(&mut self) -> io::Result<()> {
        self.file.flush()
    }
}

impl<F: AsRawFd + Drop> AsRawFd for TtyStream<F> {
    fn as_raw_fd(&self) -> RawFd {
        self.file.as_raw_fd()
    }
}
