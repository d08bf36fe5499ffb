//! The layout of an exception store by its kind: which of its chunks hold taken chunks, how many there can be,
//! and how much of the store is used.
//!
//! A transient store contains only taken chunks, from its first chunk on. Any other store begins with a header
//! and a metadata area, and another metadata area follows after every 32 * chunk data chunks (as in the kernel's
//! exception store). No other code in this crate, or in the crates above, distinguishes kinds of stores to find a
//! place.

ghost use Rattle.dm_stack.specs.Prelude.{ℕ, false, allocated, is_metadata, metadata, place, place_count, StoreKind};
ghost use Rattle.std.specs.Prelude.{◌≡◌, ◌↔◌, ◌+◌, ◌*◌, ◌<◌, ◌≤◌, ◌^◌};

use crate::lines::chunk_size::ChunkSize;
use dm_table::StoreKind;

/// How many taken chunks of `chunk` sectors fit into a store of `store_len` sectors, beside its header and
/// metadata areas. A taken chunk has a place exactly if its number, from 0, is below the result.
///
/// Takes constant time, whatever the length.
#[tactic(auto, using(crate::proofs::lines::StoreLayoutLemmas::has_place))]
pub fn place_count(kind: StoreKind, chunk: ChunkSize, store_len: u64) -> u64
    ensures count { result ≡ place_count kind chunk store_len }
    ensures law { (number : ℕ) → (number < result) ↔ ((place kind chunk number + 1) * chunk ≤ store_len) }
{
    let sectors = chunk.sectors();
    let chunks = chunk.chunk_of(store_len);
    match kind {
        StoreKind::Transient => chunks,
        StoreKind::Persistent | StoreKind::Keeping => {
            let rest = chunks.saturating_sub(2);
            rest - rest / (32 * sectors + 1)
        }
    }
}

/// The chunk of the store, from 0, that holds the taken chunk with this number, from 0.
pub fn place(kind: StoreKind, chunk: ChunkSize, number: u64) -> u64
    requires { place kind chunk number < 2 ^ 63 }
    ensures { result ≡ place kind chunk number }
{
    match kind {
        StoreKind::Transient => number,
        StoreKind::Persistent | StoreKind::Keeping => 2 + number + chunk.full_areas(number),
    }
}

/// The number of used sectors in a store with this many taken chunks: all before the place of the next chunk. If
/// a metadata area comes right before that place, this can be more than the store's length.
#[tactic(auto, using(crate::proofs::lines::StoreLayoutLemmas::place_within))]
pub fn allocated(kind: StoreKind, chunk: ChunkSize, taken: u64) -> u64
    requires { allocated kind chunk taken < 2 ^ 63 }
    ensures { result ≡ allocated kind chunk taken }
{
    let sectors = chunk.sectors();
    place(kind, chunk, taken) * sectors
}

/// How many of a store's used sectors belong to the header and metadata areas.
#[tactic(auto, using(crate::proofs::lines::StoreLayoutLemmas::used_parts))]
pub fn metadata(kind: StoreKind, chunk: ChunkSize, taken: u64) -> u64
    requires { allocated kind chunk taken < 2 ^ 63 }
    ensures { result ≡ metadata kind chunk taken }
{
    let sectors = chunk.sectors();
    (place(kind, chunk, taken) - taken) * sectors
}

/// States that taken chunks with different numbers have different places in their store, in rising order, and
/// none of them is in the header or a metadata area. The function does nothing; its contract is the law.
#[tactic(auto, using(crate::proofs::lines::StoreLayoutLemmas::places_apart))]
pub fn places_are_apart()
    ensures apart { (kind : StoreKind) (chunk first second : ℕ)
        → first < second → place kind chunk first < place kind chunk second }
    ensures data { (kind : StoreKind) (chunk number : ℕ)
        → 0 < chunk → is_metadata kind chunk (place kind chunk number) ≡ false }
{}
