//! Taken chunks: the chunks that a snapshot's exception store holds.
//!
//! A mapper keeps one `Taken` for each device. Contracts see the chunks in the order in which they were taken,
//! each at most once, the number of places, and whether the snapshot is valid. Implementations may keep these in
//! any form; `PlainTaken` is the simplest. A chunk's number, its index in the list, determines where in the store
//! the chunk is.

ghost use Rattle.dm_map.specs.Prelude.{ℕ, [], Bool, true, false, List, None, is_none, length, nat_eq, IfOk, IsDistinct, number_in};
ghost use Rattle.std.specs.Prelude.{◌≡◌, ◌<◌, ◌≤◌, ◌==◌, ◌∷◌, ◌++◌, if◌then◌else◌};

use std::alloc::{AllocError, Global};

/// Keeps the chunks that a snapshot took, and whether the snapshot is valid.
pub trait Taken: Drop + Sized {
    /// The chunks, in the order in which they were taken.
    ghost chunks: { Self → List ℕ };

    /// The greatest number of chunks that can be kept.
    ghost places: { Self → ℕ };

    /// Whether the snapshot is valid.
    ghost valid: { Self → Bool };

    /// Makes an empty table for a valid snapshot, with this many places, and allocates all memory that later
    /// calls use.
    ///
    /// # Errors
    ///
    /// `AllocError` if there is not enough memory.
    fn with_places(alloc: Global, count: usize) -> Result<Self, AllocError>
        ensures chunks { IfOk result (λ taken. chunks taken ≡ []) }
        ensures places { IfOk result (λ taken. places taken ≡ count) }
        ensures valid { IfOk result (λ taken. valid taken ≡ true) };

    /// Like `with_places`, for a snapshot whose device has `_chunks` chunks. If there are fewer chunks than
    /// places, less memory may be enough. Chunks past the snapshot's end can be taken nevertheless.
    ///
    /// # Errors
    ///
    /// `AllocError` if there is not enough memory.
    fn for_chunks(alloc: Global, count: usize, _chunks: u64) -> Result<Self, AllocError>
        ensures chunks { IfOk result (λ taken. chunks taken ≡ []) }
        ensures places { IfOk result (λ taken. places taken ≡ count) }
        ensures valid { IfOk result (λ taken. valid taken ≡ true) }
    {
        Self::with_places(alloc, count)
    }

    /// The number of a chunk, counted from 0 in the order of taking; None if the chunk isn't taken.
    fn find(&self, chunk: u64) -> Option<usize>
        ensures { result ≡ number_in chunk (chunks self.now) };

    /// Prefetches the memory that `find` reads first for this chunk. The value read is returned only to keep the
    /// compiler from dropping the read; it tells nothing about the chunk.
    fn prefetch(&self, _chunk: u64) -> u64 {
        0
    }

    /// The number of chunks taken so far.
    fn count(&self) -> usize
        ensures { result ≡ length (chunks self.now) };

    /// Whether all places are used.
    fn is_full(&self) -> bool
        ensures { result ≡ (length (chunks self.now) == places self.now) };

    /// Whether the snapshot is valid.
    fn is_valid(&self) -> bool
        ensures { result ≡ valid self.now };

    /// Takes a chunk that isn't taken yet. A place must be left, and the snapshot must be valid.
    fn take(&mut self, chunk: u64)
        requires valid { valid self.old ≡ true }
        requires room { length (chunks self.old) < places self.old }
        requires fresh { number_in chunk (chunks self.old) ≡ None }
        ensures chunks { chunks self.new ≡ chunks self.old ++ chunk ∷ [] }
        ensures places { places self.new ≡ places self.old }
        ensures valid { valid self.new ≡ true };

    /// Takes a chunk unless it is taken already, and returns whether the chunk was new. A place must be left, and
    /// the snapshot must be valid.
    fn offer(&mut self, chunk: u64) -> bool
        requires valid { valid self.old ≡ true }
        requires room { length (chunks self.old) < places self.old }
        ensures fresh { result ≡ is_none (number_in chunk (chunks self.old)) }
        ensures chunks { chunks self.new
            ≡ (if result then chunks self.old ++ chunk ∷ [] else chunks self.old) }
        ensures places { places self.new ≡ places self.old }
        ensures valid { valid self.new ≡ true }
    {
        if self.find(chunk).is_some() {
            return false;
        }
        self.take(chunk);
        true
    }

    /// Makes the snapshot invalid for good, and keeps its chunks.
    fn invalidate(&mut self)
        ensures chunks { chunks self.new ≡ chunks self.old }
        ensures places { places self.new ≡ places self.old }
        ensures valid { valid self.new ≡ false };

    /// The number of taken chunks is at most the number of places.
    ghost fits: { (taken : Self) → length (chunks taken) ≤ places taken };

    /// No chunk is taken twice.
    ghost once: { (taken : Self) → IsDistinct nat_eq (chunks taken) };
}
