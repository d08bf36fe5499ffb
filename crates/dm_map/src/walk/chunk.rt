//! Cuts a range at the chunks of a snapshot, and finds where a chunk's sectors are read from.

ghost use Rattle.dm_map.specs.Prelude.{false, true, length, min, IfNone, IfSome, place, store_sector, taken_at, AreInChunk, AreReadAt};
ghost use Rattle.dm_stack.specs.declared.checks.limits.TheConstants.{MOST_LENGTH};
ghost use Rattle.std.specs.Prelude.{◌≡◌, ◌↔◌, ◌+◌, ◌-◌, ◌*◌, ◌%◌, ◌<◌, ◌≤◌};

use crate::state::taken::Taken;
use crate::state::walker::Walker;
use dm_stack::{ChunkSize, DeviceId, Lower, ResolvedSnapshot, place};

/// Where sectors are read from: consecutive sectors of a device or a disk, from `sector` on.
#[derive(Clone, Copy, Drop)]
pub(crate) struct ReadAt {
    pub(crate) to: Lower,
    pub(crate) sector: u64,
}

/// How many of `most` sectors of a snapshot, from `sector` on, are in the chunk that holds `sector`.
pub(crate) fn part_of_chunk(chunk_size: ChunkSize, sector: u64, most: u64) -> u64
    ensures { result ≡ min most (chunk_size - sector % chunk_size) }
{
    most.min(chunk_size.sectors() - chunk_size.distance_in(sector))
}

/// The sector of a store at which the `number`th taken chunk starts, counted from 0.
pub(crate) fn store_start(snapshot: &ResolvedSnapshot, number: usize) -> u64
    requires { (place snapshot.now.kind snapshot.now.chunk number + 1) * snapshot.now.chunk
        ≤ MOST_LENGTH }
    ensures { result ≡ place snapshot.now.kind snapshot.now.chunk number * snapshot.now.chunk }
{
    let sectors = snapshot.chunk.sectors();
    place(snapshot.kind, snapshot.chunk, number as u64) * sectors
}

/// The sector of a store that holds this sector of a snapshot; the sector's chunk is the `number`th taken one,
/// counted from 0.
pub(crate) fn store_sector(snapshot: &ResolvedSnapshot, number: usize, sector: u64) -> u64
    requires { (place snapshot.now.kind snapshot.now.chunk number + 1) * snapshot.now.chunk
        ≤ MOST_LENGTH }
    ensures { result ≡ store_sector snapshot.now number sector }
{
    store_start(snapshot, number) + snapshot.chunk.distance_in(sector)
}

/// Where sectors of one chunk of a snapshot are read from: the store if the chunk is taken, else the origin; None
/// if the snapshot is lost.
pub(crate) fn read_at<T: Taken>(
    walker: &Walker<'_, T>,
    device: DeviceId,
    snapshot: &ResolvedSnapshot,
    sector: u64,
    len: u64,
) -> Option<ReadAt>
    requires some { 1 ≤ len }
    requires chunk { AreInChunk walker.now.stack device snapshot.now sector len }
    ensures source { IfSome result (λ source.
        AreReadAt walker.now.stack walker.now.state device snapshot.now sector len source) }
    ensures there { device < length walker.now.state }
    ensures lost { IfNone result ((taken_at walker.now.state device).valid ≡ false) }
{
    if !walker.is_valid(device) {
        return None;
    }
    Some(source_of(walker, device, snapshot, sector, len))
}

/// Where sectors of one chunk of a valid snapshot are read from: the store if the chunk is taken, else the
/// origin.
#[inline(always)]
pub(crate) fn source_of<T: Taken>(
    walker: &Walker<'_, T>,
    device: DeviceId,
    snapshot: &ResolvedSnapshot,
    sector: u64,
    len: u64,
) -> ReadAt
    requires some { 1 ≤ len }
    requires chunk { AreInChunk walker.now.stack device snapshot.now sector len }
    requires valid { (taken_at walker.now.state device).valid ≡ true }
    ensures { AreReadAt walker.now.stack walker.now.state device snapshot.now sector len result }
{
    walker.recall_soundness();
    match walker.find(device, snapshot.chunk.chunk_of(sector)) {
        Some(number) => ReadAt {
            to: snapshot.store,
            sector: store_sector(snapshot, number, sector),
        },
        None => ReadAt {
            to: snapshot.origin,
            sector,
        },
    }
}

/// Whether `next` starts right after the first `len` sectors of `source`, on the same device or disk.
#[inline(always)]
pub(crate) fn goes_on(source: &ReadAt, len: u64, next: &ReadAt) -> bool
    requires { source.now.sector + len ≤ MOST_LENGTH }
    ensures { (result ≡ true)
        ↔ (next.now ≡ record { to = source.now.to; sector = source.now.sector + len }) }
{
    next.to == source.to && next.sector == source.sector + len
}
