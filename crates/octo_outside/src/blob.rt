//! A list of bytes that grows.
ghost use Rattle.std.specs.Prelude.{◌≡◌, ℕ, ◌+◌, List, [], ◌++◌, ◌↔◌, length, IfOk, OnOk, OnErr, IsTrue};
ghost use Rattle.octo_outside.specs.Lists.{with_line_feed};

use std::alloc::{AllocError, Global};
use std::marker::Model;

/// Bytes in order, as a file or a request holds them.
#[derive(Drop)]
pub struct Blob {
    bytes: Vec<u8>,
}

impl Model for Blob {
    ghost Value = { List ℕ };

    ghost view = { λ b. b.bytes.items };
}

impl Blob {
    /// No bytes; takes no memory.
    pub fn new(alloc: Global) -> Self
        ensures { result ≡ [] }
    {
        Blob {
            bytes: Vec::new(alloc),
        }
    }

    /// A copy of these bytes. Fails if out of memory.
    pub fn from_slice(alloc: Global, bytes: &[u8]) -> Result<Self, AllocError>
        ensures { IfOk result (λ blob. blob ≡ bytes.now) }
    {
        Ok(Blob {
            bytes: Vec::from_slice(alloc, bytes)?,
        })
    }

    /// These bytes; takes no memory.
    pub fn from_vec(bytes: Vec<u8>) -> Self
        ensures { result ≡ bytes.items }
    {
        Blob { bytes }
    }

    /// Adds bytes at the end; without memory nothing is added.
    pub fn append(&mut self, bytes: &[u8]) -> Result<(), AllocError>
        ensures ok { OnOk result (self.new ≡ self.old ++ bytes.now) }
        ensures err { OnErr result (self.new ≡ self.old) }
    {
        self.bytes.extend_from_slice(bytes)
    }

    /// Drops the bytes, and keeps their memory.
    pub fn clear(&mut self)
        ensures { self.new ≡ [] }
    {
        self.bytes.clear();
    }

    /// The bytes.
    pub fn as_slice(&self) -> &[u8]
        ensures { result.now ≡ self.now }
    {
        self.bytes.as_slice()
    }

    /// How many bytes there are.
    pub fn len(&self) -> usize
        ensures { result ≡ length self.now }
    {
        self.bytes.len()
    }

    /// Whether there are none.
    pub fn is_empty(&self) -> bool
        ensures { IsTrue result ↔ (self.now ≡ []) }
    {
        self.bytes.is_empty()
    }
}

/// Adds a line with its line feed; without memory nothing is added.
pub fn append_line(text: &mut Blob, line: &[u8]) -> Result<(), AllocError>
    ensures ok { OnOk result (text.new ≡ text.old ++ with_line_feed line.now) }
    ensures err { OnErr result (text.new ≡ text.old) }
{
    let held = text.len();
    text.append(line)?;
    let added = text.append(b"\n");
    if added.is_err() {
        text.bytes.truncate(held);
    }
    added
}
