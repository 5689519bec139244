//! What was read of a connection and isn't taken yet.
ghost use Rattle.std.specs.Prelude.{◌≡◌, ◌<◌, ◌≤◌, ◌+◌, ◌-◌, ◌++◌, ◌↔◌, ℕ, List, [], length, drop, take, IfOk, OnOk, IfErr, OnErr, IsOk, Err, Ok};

use crate::MessageFault;
use octo_outside::{Conn, Failed, Got};
use std::alloc::{AllocError, Global};
use std::marker::Model;

// How many bytes a read may bring.
const READ: usize = 4096;

// The same within a long body.
const MUCH: usize = 65_536;

// Once this many bytes were taken, they are removed.
const TAKEN: usize = 16384;

// What a read brought.
#[derive(Clone, Copy, Debug, PartialEq, Eq)]
pub(crate) enum Came {
    Bytes,
    // Nothing has come yet.
    Quiet,
    // Nothing is left and the peer has closed.
    Ended,
    // The connection failed.
    Failed,
}

// The bytes that were read and aren't taken yet, and for how many quiet reads the reader still waits.
#[derive(Drop)]
pub(crate) struct Intake {
    bytes: Vec<u8>,
    // How many of the bytes were taken.
    taken: usize,
    // How many reads may be quiet in all.
    patience: u32,
    // How many more may be.
    allowed: u32,
}

impl Model for Intake {
    ghost use Rattle.std.specs.Prelude.{◌≤◌, drop, vec_len};
    ghost use Rattle.octo_http.specs.Input.{IntakeData};

    ghost Value = { IntakeData };

    ghost view = { λ i. record {
      bytes = drop i.taken i.bytes.items;
      patience = i.patience;
      allowed = i.allowed;
    } };

    ghost invariant = { λ i. i.taken ≤ vec_len i.bytes };
}

impl Intake {
    ghost use Rattle.std.specs.Prelude.{◌≡◌, ◌<◌, ◌≤◌, ◌+◌, ◌-◌, ◌++◌, [], length, drop, take, IfOk, OnOk, IfErr, OnErr, IsOk, Err, Ok};
    ghost use Rattle.octo_outside.specs.Recorded.{Rose};
    ghost use Rattle.octo_http.specs.Input.{IntakeData, Took, Brings, Waits, IsPause, Knows, Goes};
    ghost use Rattle.octo_http.specs.declared.intake.Came.{Came};
    ghost use Rattle.octo_http.specs.declared.intake.Came.TheVariants as came;

    // Nothing was read yet, and this number of reads may be quiet.
    pub(crate) fn new(alloc: Global, patience: u32) -> Self
        ensures { result ≡ record { bytes = []; patience = patience; allowed = patience } }
    {
        Intake {
            bytes: Vec::new(alloc),
            taken: 0,
            patience,
            allowed: patience,
        }
    }

    // The bytes that aren't taken yet.
    pub(crate) fn bytes(&self) -> &[u8]
        ensures { result.now ≡ self.now.bytes }
    {
        &self.bytes.as_slice()[self.taken..]
    }

    // Takes the first bytes.
    pub(crate) fn take(&mut self, n: usize)
        requires { n ≤ length self.old.bytes }
        ensures { self.new ≡ record self.old { bytes = drop n self.old.bytes } }
    {
        self.taken += n;
    }

    // Removes the bytes that were taken, if they are many or all.
    fn compact(&mut self)
        ensures { self.new ≡ self.old }
    {
        if self.taken >= TAKEN || self.taken == self.bytes.len() {
            self.bytes.drain(..self.taken);
            self.taken = 0;
        }
    }

    // Adds bytes that came; without memory nothing is added.
    fn push(&mut self, bytes: &[u8]) -> Result<(), AllocError>
        ensures ok { OnOk result
            (self.new ≡ record self.old { bytes = self.old.bytes ++ bytes.now }) }
        ensures err { OnErr result (self.new ≡ self.old) }
    {
        self.compact();
        self.bytes.extend_from_slice(bytes)
    }

    // One more read was quiet.
    fn count_quiet(&mut self)
        requires { 0 < self.old.allowed }
        ensures { self.new ≡ record self.old { allowed = self.old.allowed - 1 } }
    {
        self.allowed -= 1;
    }

    // Reads once through a buffer. Without memory what came is lost.
    fn fetch_through<C: Conn>(
        &mut self,
        conn: &mut C,
        buffer: &mut [u8],
    ) -> Result<Came, AllocError>
        requires allowed { 0 < self.old.allowed }
        requires room { 0 < length buffer.old }
        // What came follows what was at hand.
        ensures took { OnOk result
            (Took self.old.bytes (C.state conn.old).left self.new.bytes (C.state conn.new).left []) }
        ensures brings { IfOk result (λ came. Brings came self.old self.new) }
        ensures knows { IfOk result
            (λ came. Knows came self.new [] self.old.bytes (C.state conn.old).left (C.state conn.old).faults
            (C.state conn.new).faults) }

        // Counts, and what stays.
        ensures waits { Waits self.old self.new (C.state conn.old).faults (C.state conn.new).faults
            (C.state conn.old).quiets (C.state conn.new).quiets }
        ensures written { (C.state conn.new).written ≡ (C.state conn.old).written }
    {
        match conn.read(buffer) {
            Ok(Got::Bytes(n)) => {
                self.push(&buffer[..n])?;
                Ok(Came::Bytes)
            }
            Ok(Got::Quiet) => {
                self.count_quiet();
                Ok(Came::Quiet)
            }
            Ok(Got::Ended) => Ok(Came::Ended),
            Err(Failed) => Ok(Came::Failed),
        }
    }

    // Reads once. Without memory what came is lost.
    pub(crate) fn fetch<C: Conn>(&mut self, conn: &mut C) -> Result<Came, AllocError>
        requires { 0 < self.old.allowed }
        // What came follows what was at hand.
        ensures took { OnOk result
            (Took self.old.bytes (C.state conn.old).left self.new.bytes (C.state conn.new).left []) }
        ensures brings { IfOk result (λ came. Brings came self.old self.new) }
        ensures knows { IfOk result
            (λ came. Knows came self.new [] self.old.bytes (C.state conn.old).left (C.state conn.old).faults
            (C.state conn.new).faults) }

        // Counts, and what stays.
        ensures waits { Waits self.old self.new (C.state conn.old).faults (C.state conn.new).faults
            (C.state conn.old).quiets (C.state conn.new).quiets }
        ensures written { (C.state conn.new).written ≡ (C.state conn.old).written }
    {
        let mut buffer = [0; READ];
        self.fetch_through(conn, &mut buffer)
    }

    // Reads once, and asks for more bytes at a time.
    fn fetch_much<C: Conn>(&mut self, conn: &mut C) -> Result<Came, AllocError>
        requires { 0 < self.old.allowed }
        // What came follows what was at hand.
        ensures took { OnOk result
            (Took self.old.bytes (C.state conn.old).left self.new.bytes (C.state conn.new).left []) }
        ensures brings { IfOk result (λ came. Brings came self.old self.new) }
        ensures knows { IfOk result
            (λ came. Knows came self.new [] self.old.bytes (C.state conn.old).left (C.state conn.old).faults
            (C.state conn.new).faults) }

        // Counts, and what stays.
        ensures waits { Waits self.old self.new (C.state conn.old).faults (C.state conn.new).faults
            (C.state conn.old).quiets (C.state conn.new).quiets }
        ensures written { (C.state conn.new).written ≡ (C.state conn.old).written }
    {
        let mut buffer = [0; MUCH];
        self.fetch_through(conn, &mut buffer)
    }

    // Reads once for a body of which this number of bytes is due.
    pub(crate) fn fetch_due<C: Conn>(
        &mut self,
        conn: &mut C,
        due: usize,
    ) -> Result<Came, AllocError>
        requires { 0 < self.old.allowed }
        // What came follows what was at hand.
        ensures took { OnOk result
            (Took self.old.bytes (C.state conn.old).left self.new.bytes (C.state conn.new).left []) }
        ensures brings { IfOk result (λ came. Brings came self.old self.new) }
        ensures knows { IfOk result
            (λ came. Knows came self.new [] self.old.bytes (C.state conn.old).left (C.state conn.old).faults
            (C.state conn.new).faults) }

        // Counts, and what stays.
        ensures waits { Waits self.old self.new (C.state conn.old).faults (C.state conn.new).faults
            (C.state conn.old).quiets (C.state conn.new).quiets }
        ensures written { (C.state conn.new).written ≡ (C.state conn.old).written }
    {
        if due > READ {
            return self.fetch_much(conn);
        }
        self.fetch(conn)
    }

    // Whether the reader goes on after a read that brought this: the first reason not to.
    pub(crate) fn go_on(&self, came: Came) -> Result<(), MessageFault>
        ensures pause { IfErr result (IsPause came self.now) }
        ensures on { OnOk result (Goes came self.now) }
    {
        match came {
            Came::Bytes => Ok(()),
            Came::Quiet if self.allowed == 0 => Err(MessageFault::Slow {
                quiet: self.patience,
            }),
            Came::Quiet => Ok(()),
            Came::Ended => Err(MessageFault::Ended),
            Came::Failed => Err(MessageFault::ReadFault),
        }
    }
}
