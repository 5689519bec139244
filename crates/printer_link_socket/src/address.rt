//! Names of ports: over TCP, of Unix sockets and of serial devices.
ghost use Rattle.std.specs.Prelude.{◌≡◌, drop, IfSome, IfNone, true, false};
ghost use Rattle.printer_link_socket.specs.Address.{after_last_colon, before_last_colon, device_path, has_speed, is_device, is_port, is_speed, names_address, names_device, names_file, names_path, names_port, speed_of};

use byte_text::{after, are_digits, number, split_at_last};
use std::str;

/// A serial device, as a name `tty:PATH:SPEED` or `tty:PATH` names it.
#[derive(Clone, Copy)]
pub struct Device<'a> {
    /// The path of the device's file.
    pub path: &'a str,
    /// The speed in bits a second; `None` if the line keeps the speed that it has.
    pub speed: Option<u32>,
}

// Whether the bytes write a port: one to five digits, at most 65,535.
fn is_port(bytes: &[u8]) -> bool
    ensures { result ≡ is_port bytes.now }
{
    are_digits(bytes) && 1 <= bytes.len() && bytes.len() <= 5 && number(bytes) <= 65_535
}

// Whether a name begins as one of a file's: `unix:` or `tty:`.
fn names_file(name: &[u8]) -> bool
    ensures { result ≡ names_file name.now }
{
    name.starts_with(b"unix:") || name.starts_with(b"tty:")
}

/// Whether a name is `HOST:PORT`: a host, which isn't empty, and after the last colon a port in one to five digits,
/// at most 65,535. A name that begins with `unix:` or `tty:` isn't one.
pub fn names_address(name: &str) -> bool
    ensures { result ≡ names_address name.now }
{
    let name = name.as_bytes();
    match split_at_last(name, b':') {
        Some((host, port)) => !host.is_empty() && is_port(port) && !names_file(name),
        None => false,
    }
}

// Whether a name is `unix:PATH` with a path, which isn't empty.
fn names_path(name: &str) -> bool
    ensures { result ≡ names_path name.now }
{
    let name = name.as_bytes();
    name.starts_with(b"unix:") && 6 <= name.len()
}

// Whether the digits write a speed: at most seven, and not 0, which would hang the line up.
fn is_speed(digits: &[u8]) -> bool
    ensures { result ≡ is_speed digits.now }
{
    digits.len() <= 7 && 1 <= number(digits)
}

// A device's path and the digits of its speed, if digits follow the last colon.
#[tactic(auto, unfolding(crate::specs::Address::has_speed))]
fn split_speed(device: &[u8]) -> Option<(&[u8], &[u8])>
    ensures none { IfNone result (has_speed device.now ≡ false) }
    ensures some { IfSome result (λ _. has_speed device.now ≡ true) }
    ensures path { IfSome result (λ parts. parts.0.now ≡ before_last_colon device.now) }
    ensures speed { IfSome result (λ parts. parts.1.now ≡ after_last_colon device.now) }
{
    match split_at_last(device, b':') {
        Some((path, digits)) if are_digits(digits) && !digits.is_empty() => Some((path, digits)),
        _ => None,
    }
}

// Whether this is a device's path, which isn't empty, with a speed or without.
#[tactic(auto, unfolding(crate::specs::Address::is_device))]
fn is_device(device: &[u8]) -> bool
    ensures { result ≡ is_device device.now }
{
    match split_speed(device) {
        Some((path, digits)) => !path.is_empty() && is_speed(digits),
        None => !device.is_empty(),
    }
}

/// Whether a name is `tty:PATH` or `tty:PATH:SPEED`: a path, which isn't empty, and a speed of one to seven digits,
/// which isn't 0. Digits after the last colon are a speed.
#[tactic(auto, unfolding(crate::specs::Address::names_device))]
pub fn names_device(name: &str) -> bool
    ensures { result ≡ names_device name.now }
{
    let name = name.as_bytes();
    name.starts_with(b"tty:") && is_device(after(name, 4))
}

/// Whether a name is a port's: `HOST:PORT`, `unix:PATH`, `tty:PATH` or `tty:PATH:SPEED`.
pub fn names_port(name: &str) -> bool
    ensures { result ≡ names_port name.now }
{
    names_address(name) || names_path(name) || names_device(name)
}

// A device at a path of these bytes. There is one if they are text.
fn device_at(path: &[u8], speed: Option<u32>) -> Option<Device<'_>>
    ensures path { IfSome result (λ d. d.path.now ≡ path.now) }
    ensures speed { IfSome result (λ d. d.speed ≡ speed) }
{
    match str::from_utf8(path) {
        Ok(path) => Some(Device { path, speed }),
        Err(_) => None,
    }
}

// The device that is meant by what follows `tty:`.
#[tactic(auto, unfolding(crate::specs::Address::device_path, crate::specs::Address::speed_of))]
fn read_device(device: &[u8]) -> Option<Device<'_>>
    ensures path { IfSome result (λ d. d.path.now ≡ device_path device.now) }
    ensures speed { IfSome result (λ d. d.speed ≡ speed_of device.now) }
{
    match split_speed(device) {
        Some((path, digits)) => device_at(path, Some(number(digits))),
        None => device_at(device, None),
    }
}

/// The device in a name `tty:PATH` or `tty:PATH:SPEED`, `None` in any other name.
pub fn device_of(name: &str) -> Option<Device<'_>>
    ensures device { IfSome result (λ _. names_device name.now ≡ true) }
    ensures path { IfSome result (λ d. d.path.now ≡ device_path (drop 4 name.now)) }
    ensures speed { IfSome result (λ d. d.speed ≡ speed_of (drop 4 name.now)) }
{
    if names_device(name) {
        read_device(after(name.as_bytes(), 4))
    } else {
        None
    }
}
