//! A wire that keeps the order of its lines.
ghost use Rattle.std.specs.Prelude.{◌≡◌, ◌<◌, ◌==◌, [], ◌∷◌, ◌++◌, length, drop, remove, slice_set, slice_index_or, IsSome, IfSome, ◌↔◌, OnOk, OnErr};

use arrayvec::ArrayVec;
use std::alloc::{AllocError, Global};
use std::collections::VecDeque;
use std::marker::Model;

// The lines on their way, the front first.
#[derive(Drop)]
pub(crate) struct Wire<const N: usize> {
    lines: VecDeque<ArrayVec<u8, N>>,
}

impl<const N: usize> Model for Wire<N> {
    ghost use Rattle.std.specs.Prelude.{ℕ, List, map};

    ghost Value = { List (List ℕ) };

    ghost view = { λ w. map (λ l. l.items) w.lines.items };
}

impl<const N: usize> Wire<N> {
    // An empty wire.
    pub(crate) fn new(alloc: Global) -> Self
        ensures { result ≡ [] }
    {
        Wire {
            lines: VecDeque::new(alloc),
        }
    }

    // How many lines are on their way.
    pub(crate) fn len(&self) -> usize
        ensures { result ≡ length self.now }
    {
        self.lines.len()
    }

    // The line at the front.
    pub(crate) fn front(&self) -> Option<&ArrayVec<u8, N>>
        ensures some { IsSome result ↔ (0 < length self.now) }
        ensures line { IfSome result (λ l. l.now.items ≡ slice_index_or self.now 0 l.now.items) }
    {
        self.lines.front()
    }

    // Adds a line at the end.
    pub(crate) fn push(&mut self, line: ArrayVec<u8, N>) -> Result<(), AllocError>
        ensures ok { OnOk result (self.new ≡ self.old ++ line.entry.items ∷ []) }
        ensures err { OnErr result (self.new ≡ self.old) }
    {
        self.lines.push_back(line)?;
        Ok(())
    }

    // Adds three lines at the end, or none.
    pub(crate) fn push_three(
        &mut self,
        first: ArrayVec<u8, N>,
        second: ArrayVec<u8, N>,
        third: ArrayVec<u8, N>,
    ) -> Result<(), AllocError>
        ensures ok { OnOk result (self.new
            ≡ self.old ++ first.entry.items ∷ second.entry.items ∷ third.entry.items ∷ []) }
        ensures err { OnErr result (self.new ≡ self.old) }
    {
        self.lines.reserve(3)?;
        self.lines.push_back(first)?;
        self.lines.push_back(second)?;
        self.lines.push_back(third)?;
        Ok(())
    }

    // Takes the line at the front, if there is one.
    pub(crate) fn pop(&mut self) -> Option<ArrayVec<u8, N>>
        ensures some { IsSome result ↔ (0 < length self.old) }
        ensures line { IfSome result (λ l. l.items ≡ slice_index_or self.old 0 l.items) }
        ensures rest { self.new ≡ drop 1 self.old }
    {
        self.lines.pop_front()
    }

    // Takes out the line at a place.
    #[tactic(auto, using(crate::proofs::Wires::map_remove))]
    pub(crate) fn remove(&mut self, at: usize)
        requires { at < length self.old }
        ensures { self.new ≡ remove self.old at }
    {
        match self.lines.remove(at) {
            Some(_) => {}
            None => unreachable!(),
        }
    }

    // Puts a line in the place of another.
    pub(crate) fn set(&mut self, at: usize, line: ArrayVec<u8, N>)
        requires { at < length self.old }
        ensures { self.new ≡ slice_set self.old at line.entry.items }
    {
        self.lines[at] = line;
    }

    // Empties the wire.
    pub(crate) fn clear(&mut self)
        ensures { self.new ≡ [] }
    {
        self.lines.truncate(0);
    }
}
