//! Taken chunks in a plain list, the simplest implementation of `Taken`.
//!
//! A look-up walks over all chunks taken so far, which suits snapshots that took few chunks. All memory is
//! reserved when the list is made.

ghost use Rattle.dm_map.specs.Prelude.{length, nat_eq, IsDistinct, IsDistinct-prop, number_in};
ghost use Rattle.std.specs.Prelude.{◌≡◌, ◌≤◌};

use crate::state::taken::Taken;
use dm_table::Reserved;
use std::alloc::{AllocError, Global};

#[cfg(test)]
mod tests;

/// The chunks that a snapshot took, in the order in which it took them.
#[derive(Drop)]
pub struct PlainTaken {
    chunks: Reserved<u64>,
    places: usize,
    valid: bool,
    ghost reserved: { places ≤ chunks.room },
    ghost fits: { length chunks.items ≤ places },
    ghost once: { IsDistinct nat_eq chunks.items } by { IsDistinct-prop nat_eq chunks.items },
}

impl Taken for PlainTaken {
    ghost chunks = { λ taken. taken.chunks.items };

    ghost places = { λ taken. taken.places };

    ghost valid = { λ taken. taken.valid };

    fn with_places(alloc: Global, count: usize) -> Result<PlainTaken, AllocError> {
        Ok(PlainTaken {
            chunks: Reserved::from_vec(Vec::with_capacity(alloc, count)?),
            places: count,
            valid: true,
        })
    }

    fn find(&self, chunk: u64) -> Option<usize> {
        number_of(self.chunks.as_slice(), chunk)
    }

    fn count(&self) -> usize {
        self.chunks.len()
    }

    fn is_full(&self) -> bool {
        self.chunks.len() == self.places
    }

    fn is_valid(&self) -> bool {
        self.valid
    }

    fn take(&mut self, chunk: u64) {
        self.chunks.push(chunk);
    }

    fn invalidate(&mut self) {
        self.valid = false;
    }

    ghost fits = { λ taken. taken.fits };

    ghost once = { λ taken. taken.once };
}

/// The index at which a chunk first occurs in a list, or None.
fn number_of(chunks: &[u64], chunk: u64) -> Option<usize>
    ensures { result ≡ number_in chunk chunks.now }
{
    let mut number = 0;
    while number < chunks.len() {
        if chunks[number] == chunk {
            return Some(number);
        }
        number += 1;
    }
    None
}
