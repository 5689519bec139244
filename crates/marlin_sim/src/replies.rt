//! The replies that are to be written: those that aren't lost.
ghost use Rattle.std.specs.Prelude.{◌≡◌, ◌∷◌, [], IfOk, OnOk, OnErr};
ghost use Rattle.octo_outside.specs.Memory.{one_more};
ghost use Rattle.marlin_sim.specs.Run.{start_text};
ghost use Rattle.marlin_sim.specs.Sim.{with_replies};

use octo_outside::{Blob, CallList, append_line, calls_of};
use std::alloc::{AllocError, Global};
use std::marker::Model;

/// What is still to be written, which replies are lost, and the number of the next one.
#[derive(Drop)]
pub struct Replies {
    text: Blob,
    lost: CallList,
    next: u64,
}

impl Model for Replies {
    ghost use Rattle.marlin_sim.specs.Sim.{RepliesData};

    ghost Value = { RepliesData };

    ghost view = { λ r. record { text = r.text; lost = r.lost; next = r.next } };
}

impl Replies {
    /// `start` is to be written, which isn't counted; the listed ones of the replies after it are lost, counted from 1. Fails
    /// if out of memory.
    pub fn new(alloc: Global, lost: &[u64]) -> Result<Self, AllocError>
        ensures { IfOk result (λ r. r ≡ record { text = start_text; lost = lost.now; next = 1 }) }
    {
        Ok(Replies {
            text: Blob::from_slice(alloc, b"start\n")?,
            lost: calls_of(alloc, lost)?,
            next: 1,
        })
    }

    /// What is to be written.
    pub fn as_slice(&self) -> &[u8]
        ensures { result.now ≡ self.now.text }
    {
        self.text.as_slice()
    }

    /// What was to be written is.
    pub fn clear(&mut self)
        ensures { self.new ≡ record self.old { text = [] } }
    {
        self.text.clear();
    }

    // The next reply was counted.
    fn count(&mut self)
        ensures { self.new ≡ record self.old { next = one_more self.old.next } }
    {
        self.next = self.next.saturating_add(1);
    }

    /// Adds a reply line, unless it is lost. Fails if out of memory; then all is as before.
    #[tactic(auto, using(crate::proofs::Lost::one_lost, crate::proofs::Lost::one_kept))]
    pub fn put(&mut self, line: &[u8]) -> Result<(), AllocError>
        ensures ok { OnOk result (self.new ≡ with_replies self.old (line.now ∷ [])) }
        ensures err { OnErr result (self.new ≡ self.old) }
    {
        if self.lost.as_slice().contains(&self.next) {
            self.count();
            return Ok(());
        }
        append_line(&mut self.text, line)?;
        self.count();
        Ok(())
    }
}
