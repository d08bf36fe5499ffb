//! Chunk sizes of snapshots, which are powers of two, so mapping shifts and masks instead of dividing.
//!
//! A small request to a snapshot would otherwise take six divisions, a tenth of the request's time.
//!
//! This is here for speed alone: RESULTS.md lists the gain as *chunk sizes by their exponent*. Sizes must be
//! powers of two, which a load checks. If you change it, measure random first writes before and after.

ghost use Rattle.dm_stack.specs.Prelude.{is_bad_chunk, fit_chunk};
ghost use Rattle.dm_stack.specs.declared.checks.limits.TheConstants.{MOST_SNAPSHOT_CHUNK};
ghost use Rattle.std.specs.Prelude.{◌≡◌, ◌*◌, ◌/◌, ◌%◌, ◌<◌, ◌≤◌};

use crate::checks::limits::MOST_SNAPSHOT_CHUNK;
use std::marker::Model;

/// The number of sectors in a snapshot's chunks: a power of two from 1 to 1,024. Contracts see a `ChunkSize` as
/// this number.
#[derive(Clone, Copy, Debug, Drop)]
pub struct ChunkSize {
    /// The exponent: a chunk has 2^shift sectors.
    shift: u32,
}

impl Model for ChunkSize {
    ghost use Rattle.dm_stack.specs.Base.{ℕ, count_ones, ones-ones};
    ghost use Rattle.std.specs.Prelude.{◌≤◌, ◌-◌, ◌^◌};

    ghost Value = { ℕ };

    ghost view = { λ size. 2 ^ size.shift };

    ghost invariant = { λ size. size.shift ≤ 10 };

    ghost inverse = { λ sectors. record { shift = count_ones (sectors - 1) } };

    ghost inverse_ok = { λ size small i. record { shift = ones-ones size.shift i } };
}

impl ChunkSize {
    /// The chunk size with this many sectors, or with 1 if a load refuses that number.
    #[tactic(auto, using(crate::proofs::checks::ChunkLemmas::chunk_within, crate::proofs::lines::ChunkSizes::exponent_of))]
    pub(crate) fn new(sectors: u64) -> ChunkSize
        ensures { result ≡ fit_chunk sectors }
    {
        if is_bad_chunk(sectors) {
            return ChunkSize { shift: 0 };
        }
        ChunkSize {
            shift: sectors.ilog2(),
        }
    }

    /// The number of sectors in a chunk.
    #[tactic(auto, using(crate::proofs::lines::ChunkSizes::size_within))]
    #[inline(always)]
    pub fn sectors(self) -> u64
        ensures is { result ≡ self }
        ensures some { 0 < result }
        ensures small { result ≤ MOST_SNAPSHOT_CHUNK }
    {
        1u64 << self.shift
    }

    /// The number of the chunk that holds a sector, from 0.
    #[inline(always)]
    pub fn chunk_of(self, sector: u64) -> u64
        ensures { result ≡ sector / self }
    {
        sector >> self.shift
    }

    /// How many sectors come before this sector in its chunk.
    #[tactic(auto, using(crate::proofs::lines::ChunkSizes::masked))]
    #[inline(always)]
    pub fn distance_in(self, sector: u64) -> u64
        ensures is { result ≡ sector % self }
        ensures within { result < self }
    {
        sector & ((1u64 << self.shift) - 1)
    }

    /// How many metadata areas this many chunk numbers fill: an area is a chunk of 32 numbers per sector.
    #[tactic(auto, using(crate::proofs::lines::ChunkSizes::areas))]
    #[inline(always)]
    pub(crate) fn full_areas(self, numbers: u64) -> u64
        ensures { result ≡ numbers / (32 * self) }
    {
        numbers >> (self.shift + 5)
    }
}

/// Whether a chunk size isn't a power of two from 1 to 1,024.
pub(crate) fn is_bad_chunk(chunk: u64) -> bool
    ensures { result ≡ is_bad_chunk chunk }
{
    MOST_SNAPSHOT_CHUNK < chunk || !chunk.is_power_of_two()
}
