//! Reading a message from memory, and what it says.
use octo_http::{Message, read_message};
use octo_outside::{ByteConn, CallList, MemoryConn};
use std::alloc::Global;
use std::str;

// A connection of this input, none of whose calls fails or finds nothing.
fn conn_of(alloc: Global, input: &[u8]) -> anyhow::Result<MemoryConn> {
    let conn = MemoryConn::new(alloc, input, CallList::new(alloc), CallList::new(alloc))?;
    Ok(conn)
}

/// Reads a message.
pub fn read_whole(alloc: Global, input: &[u8]) -> anyhow::Result<Message> {
    let mut conn = conn_of(alloc, input)?;
    let message = read_message(alloc, &mut conn, 1)?;
    Ok(message)
}

/// Reads a message whose bytes come one by one.
pub fn read_bytes(alloc: Global, input: &[u8]) -> anyhow::Result<Message> {
    let mut conn = ByteConn::new(conn_of(alloc, input)?);
    let message = read_message(alloc, &mut conn, 1)?;
    Ok(message)
}

/// Prints a message's method and path, whether it has a key, and how many bytes its body has.
pub fn print_message(rt: HostRuntime, name: &str, message: &Message) -> anyhow::Result<()> {
    let method = message.method.as_str();
    let path = str::from_utf8(message.path.as_slice())?;
    let has_key = message.key.is_some();
    let count = message.body.len();
    println!(rt; "{name}: {method} {path}, key {has_key}, body {count}")?;
    Ok(())
}
