//! What a shelf and its stagers know of each other's work.
use std::alloc::{AllocError, Global};
use std::sync::Arc;
use std::sync::atomic::{AtomicBool, AtomicU64, Ordering};

// How many files the shelf has removed, how many removes the stagers have finished, and whether a stager couldn't have the disk
// take the names of the folder since the last put. A contract knows none of them.
#[derive(Drop)]
pub(crate) struct Notes {
    removals: Arc<AtomicU64>,
    finished: Arc<AtomicU64>,
    is_unsynced: Arc<AtomicBool>,
}

impl Notes {
    // Nothing was removed, and nothing has failed.
    pub(crate) fn new(alloc: Global) -> Result<Self, AllocError> {
        Ok(Notes {
            removals: Arc::new(alloc, AtomicU64::new(0))?,
            finished: Arc::new(alloc, AtomicU64::new(0))?,
            is_unsynced: Arc::new(alloc, AtomicBool::new(false))?,
        })
    }

    // The same notes, for another reader.
    pub(crate) fn share(&self) -> Result<Self, AllocError> {
        Ok(Notes {
            removals: Arc::try_clone(&self.removals)?,
            finished: Arc::try_clone(&self.finished)?,
            is_unsynced: Arc::try_clone(&self.is_unsynced)?,
        })
    }

    // The shelf has removed a file.
    pub(crate) fn count_removal(&self) {
        self.removals.fetch_add(1, Ordering::SeqCst);
    }

    // How many files the shelf has removed.
    pub(crate) fn removals(&self) -> u64 {
        self.removals.load(Ordering::SeqCst)
    }

    // A stager has finished this number of removes.
    pub(crate) fn finish(&self, removals: u64) {
        self.finished.store(removals, Ordering::SeqCst);
    }

    // How many removes the stagers have finished.
    pub(crate) fn finished(&self) -> u64 {
        self.finished.load(Ordering::SeqCst)
    }

    // A stager couldn't have the disk take the names of the folder.
    pub(crate) fn note_unsynced(&self) {
        self.is_unsynced.store(true, Ordering::SeqCst);
    }

    // Whether a stager couldn't, since this was asked last.
    pub(crate) fn take_unsynced(&self) -> bool {
        self.is_unsynced.swap(false, Ordering::SeqCst)
    }
}
