//! Taken chunks in a trie, for snapshots that take many chunks in any order.
//!
//! Chunks are kept in the order in which they were taken. A look-up starts at the chunk's slot in a table,
//! follows forks that test one bit each, and ends at the number of the only taken chunk that can be equal. When a
//! new chunk's look-up ends at the number of another chunk, a fork replaces that number; nothing else ever moves.
//!
//! Own slots and prefetching are here for speed alone: RESULTS.md lists their gain as *chunks in slots of their
//! own*, *batches and reading ahead* and *links of a batch read in a row*. If you change them, measure random
//! first writes before and after.

ghost use Rattle.dm_map.specs.Prelude.{[], None, true, length, nat_eq, replicate, vec_capacity, IfOk, OnOk, IsDistinct, bit_at, IsDistinct-prop, Empty, Number, number_in, AreInOwnSlots, IsTrie, end_of, node_at};
ghost use Rattle.std.specs.Prelude.{◌≡◌, ◌<◌, ◌≤◌, ◌+◌, ◌*◌, ◌^◌, ◌++◌, ◌∷◌};

mod link;
mod slots;
#[cfg(test)]
mod tests;

use crate::state::taken::Taken;
use crate::state::trie_taken::link::{Link, Node};
use crate::state::trie_taken::slots::Slots;
use dm_table::Reserved;
use std::alloc::{AllocError, Global};

/// The most places of a trie; with more, the index of a link might not fit into a fork.
const MOST_PLACES: usize = 1 << 23;

/// The chunks that a snapshot took, and a trie that finds their numbers.
///
/// A look-up takes at most 64 tests of a bit and one comparison. Taking a chunk needs as many tests, and writes
/// at most four links. This holds for any chunks, because those that share a slot form a tree of forks.
///
/// `with_places` or `for_chunks` reserves all memory: 16 bytes for each place, and the table of slots. The table,
/// 4 to 8 bytes for each place, or for each chunk of the snapshot if these are fewer, is written at once. The 8
/// bytes for a chunk, and the 8 for a fork's links, are written only when the chunk is taken. More than 2²³
/// places are refused as out of memory.
#[derive(Drop)]
pub struct TrieTaken {
    chunks: Reserved<u64>,
    /// The table of slots, and after it the two links of each fork.
    links: Reserved<Link>,
    /// Which slot of the table a chunk's look-up starts at.
    slots: Slots,
    /// The number of places, at most 2²³. As a `u32` it keeps the struct at 72 bytes, faster to index than 80.
    places: u32,
    valid: bool,
    /// Whether every taken chunk is in the slot whose index is the chunk. If so, a look-up needs no comparison
    /// and doesn't read the list of chunks.
    own_slots: bool,
    ghost reserved: { places ≤ chunks.room },
    ghost room: { slots.mask + 1 + 2 * places ≤ links.room },
    ghost small: { slots.mask + 1 + 2 * places < 2 ^ 25 },
    ghost table: { slots.mask < length links.items },
    ghost forks: { length links.items ≤ slots.mask + 1 + 2 * length chunks.items },
    ghost fits: { length chunks.items ≤ places },
    ghost once: { IsDistinct nat_eq chunks.items } by { IsDistinct-prop nat_eq chunks.items },
    ghost leads: { ∥ IsTrie chunks.items links.items slots ∥₁ },
    ghost own: { ∥ (own_slots ≡ true → AreInOwnSlots chunks.items links.items) ∥₁ },
}

impl TrieTaken {
    /// The taken chunks, in the order in which they were taken.
    pub fn as_slice(&self) -> &[u64]
        ensures chunks { result.now ≡ ⟦<TrieTaken as Taken>⟧.chunks self.now }
        ensures few { length result.now < 2 ^ 24 }
    {
        self.chunks.as_slice()
    }

    /// The number of a taken chunk, counted from 0 in the order of taking, as `find` returns it.
    ///
    /// Adds to `comparisons` how often the chunk was compared with a taken one, at most once, and to `bits` how
    /// many of its bits were tested, at most 64. Each sum stops growing at `u64::MAX`.
    pub fn find_counted(&self, chunk: u64, comparisons: &mut u64, bits: &mut u64) -> Option<usize>
        ensures found { result ≡ number_in chunk (⟦<TrieTaken as Taken>⟧.chunks self.now) }
        ensures compared { comparisons.old ≤ comparisons.new }
        ensures once { comparisons.new ≤ comparisons.old + 1 }
        ensures tested { bits.old ≤ bits.new }
        ensures few { bits.new ≤ bits.old + 64 }
    {
        let (at, tested) = self.end_of(chunk);
        *bits = bits.saturating_add(tested);
        let Node::Number(number) = self.links[at].node() else {
            return None;
        };
        if self.own_slots && at as u64 == chunk {
            return Some(number as usize);
        }
        *comparisons = comparisons.saturating_add(1);
        if self.chunks[number as usize] == chunk {
            Some(number as usize)
        } else {
            None
        }
    }

    /// The index at which a chunk's look-up ends, and how many bits the look-up tests.
    fn end_of(&self, chunk: u64) -> (usize, u64)
        ensures at { result.0 ≡ end_of self.now.links.items self.now.slots chunk }
        ensures few { result.1 ≤ 64 }
    {
        let mut at = self.slots.of(chunk);
        let mut tested = 0;
        while let Node::Fork(bit, pair) = self.links[at].node() {
            at = pair as usize + bit_of(chunk, bit);
            tested += 1;
        }
        (at, tested)
    }

    /// Takes a chunk whose look-up ends at this index, at an empty link.
    fn put(&mut self, at: usize, chunk: u64)
        requires room { length self.old.chunks.items < self.old.places }
        requires fresh { number_in chunk self.old.chunks.items ≡ None }
        requires at { at ≡ end_of self.old.links.items self.old.slots chunk }
        requires empty { node_at self.old.links.items at ≡ Empty }
        ensures chunks { self.new.chunks.items ≡ self.old.chunks.items ++ chunk ∷ [] }
        ensures places { self.new.places ≡ self.old.places }
        ensures valid { self.new.valid ≡ self.old.valid }
    {
        self.own_slots &= at as u64 == chunk;
        self.links[at] = Link::number(self.chunks.len() as u32);
        self.chunks.push(chunk);
    }

    /// Takes a chunk whose look-up ends at the number of another chunk: replaces that number with a fork. The
    /// fork tests the lowest bit in which the two chunks differ, and has a link to each of their numbers.
    fn part(&mut self, at: usize, other: u32, chunk: u64)
        requires room { length self.old.chunks.items < self.old.places }
        requires fresh { number_in chunk self.old.chunks.items ≡ None }
        requires at { at ≡ end_of self.old.links.items self.old.slots chunk }
        requires other { node_at self.old.links.items at ≡ Number other }
        ensures chunks { self.new.chunks.items ≡ self.old.chunks.items ++ chunk ∷ [] }
        ensures places { self.new.places ≡ self.old.places }
        ensures valid { self.new.valid ≡ self.old.valid }
    {
        self.own_slots = false;
        let there = self.chunks[other as usize];
        let bit = (there ^ chunk).trailing_zeros();
        let pair = self.links.len();
        self.links.push(Link::number(other));
        self.links.push(Link::number(other));
        self.links[pair + bit_of(chunk, bit)] = Link::number(self.chunks.len() as u32);
        self.links[at] = Link::fork(bit, pair as u32);
        self.chunks.push(chunk);
    }
}

impl Taken for TrieTaken {
    ghost chunks = { λ taken. taken.chunks.items };

    ghost places = { λ taken. taken.places };

    ghost valid = { λ taken. taken.valid };

    /// Refuses more than 2²³ places as out of memory.
    fn with_places(alloc: Global, count: usize) -> Result<TrieTaken, AllocError>
        ensures chunks { IfOk result (λ taken. ⟦<TrieTaken as Taken>⟧.chunks taken ≡ []) }
        ensures places { IfOk result (λ taken. ⟦<TrieTaken as Taken>⟧.places taken ≡ count) }
        ensures valid { IfOk result (λ taken. ⟦<TrieTaken as Taken>⟧.valid taken ≡ true) }
        ensures few { OnOk result (count ≤ 2 ^ 23) }
    {
        TrieTaken::for_chunks(alloc, count, count as u64)
    }

    /// Makes a table with a slot for each chunk of the snapshot, or for each place if there are fewer places.
    /// Refuses more than 2²³ places as out of memory.
    fn for_chunks(alloc: Global, count: usize, chunks: u64) -> Result<TrieTaken, AllocError>
        ensures chunks { IfOk result (λ taken. ⟦<TrieTaken as Taken>⟧.chunks taken ≡ []) }
        ensures places { IfOk result (λ taken. ⟦<TrieTaken as Taken>⟧.places taken ≡ count) }
        ensures valid { IfOk result (λ taken. ⟦<TrieTaken as Taken>⟧.valid taken ≡ true) }
        ensures few { OnOk result (count ≤ 2 ^ 23) }
    {
        if count > MOST_PLACES {
            return Err(AllocError);
        }
        let slots = (chunks.min(count as u64) as usize).next_power_of_two();
        Ok(TrieTaken {
            chunks: Reserved::from_vec(Vec::with_capacity(alloc, count)?),
            links: Reserved::from_vec(slots_with_room(alloc, slots, slots + 2 * count)?),
            slots: Slots::with_count(slots),
            places: count as u32,
            valid: true,
            own_slots: true,
        })
    }

    fn find(&self, chunk: u64) -> Option<usize> {
        let mut comparisons = 0;
        let mut bits = 0;
        self.find_counted(chunk, &mut comparisons, &mut bits)
    }

    /// Reads the link at which the chunk's look-up starts, and the taken chunk or the links to which that link
    /// leads. With own slots, the link isn't decoded, because a branch that waits for one link would delay the
    /// links of other requests.
    fn prefetch(&self, chunk: u64) -> u64 {
        let link = &self.links[self.slots.of(chunk)];
        if self.own_slots {
            return link.code();
        }
        match link.node() {
            Node::Empty => 0,
            Node::Number(number) => self
                .chunks
                .as_slice()
                .get(number as usize)
                .copied()
                .unwrap_or(0),
            Node::Fork(_, pair) => self
                .links
                .as_slice()
                .get(pair as usize)
                .map_or(0, Link::code),
        }
    }

    fn count(&self) -> usize {
        self.chunks.len()
    }

    fn is_full(&self) -> bool {
        self.chunks.len() == self.places as usize
    }

    fn is_valid(&self) -> bool {
        self.valid
    }

    fn take(&mut self, chunk: u64) {
        self.offer(chunk);
    }

    fn offer(&mut self, chunk: u64) -> bool {
        let (at, _) = self.end_of(chunk);
        match self.links[at].node() {
            Node::Empty => self.put(at, chunk),
            Node::Number(other) => {
                if self.chunks[other as usize] == chunk {
                    return false;
                }
                self.part(at, other, chunk);
            }
            // After 64 bits, a look-up can't meet another fork.
            Node::Fork(_, _) => unreachable!(),
        }
        true
    }

    fn invalidate(&mut self) {
        self.valid = false;
    }

    ghost fits = { λ taken. taken.fits };

    ghost once = { λ taken. taken.once };
}

/// Makes a table of this many empty links, with room for `room` links.
fn slots_with_room(alloc: Global, slots: usize, room: usize) -> Result<Vec<Link>, AllocError>
    requires { slots ≤ room }
    ensures items { IfOk result (λ links. links.items ≡ replicate slots Empty) }
    ensures room { IfOk result (λ links. room ≤ vec_capacity links) }
{
    let mut links = Vec::with_capacity(alloc, room)?;
    for _slot in 0..slots {
        links.push_reserved(Link::empty());
    }
    Ok(links)
}

/// The value of a bit of the chunk, 0 or 1.
fn bit_of(chunk: u64, bit: u32) -> usize
    requires { bit < 64 }
    ensures { result ≡ bit_at chunk bit }
{
    ((chunk >> bit) & 1) as usize
}
