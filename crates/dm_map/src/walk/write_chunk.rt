//! Writes to a snapshot, chunk by chunk: each chunk is looked up or taken once, for all of its sectors.
//!
//! A chunk's number determines where its sectors are in the store. The copies of a new chunk already tell where
//! it lies on a disk, so its place isn't looked up again for the write.

ghost use Rattle.dm_map.specs.Prelude.{true, None, Some, length, not, lower_len, IsStore, has_place, number_in, taken_at, snapshot_at, AreAskedOfChunk, AreAskedOfSnapshot, HasRoomFor, IsSnapshotWritten, IsWalked, is_keeping, store_writes, keep};
ghost use Rattle.std.specs.Prelude.{◌≡◌, ◌+◌, ◌/◌, ◌<◌, ◌≤◌, ◌&&◌};

use crate::pieces::piece::Piece;
use crate::pieces::sink::Sink;
use crate::state::taken::Taken;
use crate::state::walker::Walker;
use crate::walk::chunk::{part_of_chunk, store_sector};
use crate::walk::homes::first_homes;
use crate::walk::take_chunk::take_new_chunk;
use dm_stack::{DeviceId, Lower, ResolvedSnapshot};
use dm_table::StoreKind;

/// Hands over the writes to sectors of a snapshot, chunk by chunk.
///
/// The function is never inlined, which makes the walk through lines and stripes faster.
#[inline(never)]
pub(crate) fn write_snapshot<S: Sink, T: Taken>(
    walker: &mut Walker<'_, T>,
    device: DeviceId,
    snapshot: &ResolvedSnapshot,
    sector: u64,
    len: u64,
    sink: &mut S,
) -> Result<(), S::Fault>
    requires asked { AreAskedOfSnapshot S.past sink.old walker.old.stack device snapshot.now sector len }
    ensures { IsSnapshotWritten S.past result sink.old sink.new walker.old walker.new
        snapshot.now device sector len }
{
    let chunk_size = snapshot.chunk;
    let mut from = sector;
    let mut left = len;
    'chunks: while left > 0 {
        let part = part_of_chunk(chunk_size, from, left);
        write_chunk(walker, device, snapshot, from, part, sink)?;
        from += part;
        left -= part;
    }
    Ok(())
}

/// Hands over the writes to sectors of one chunk of a snapshot: takes the chunk if needed, and then writes the
/// sectors in the store. All sectors fail if the snapshot is lost.
fn write_chunk<S: Sink, T: Taken>(
    walker: &mut Walker<'_, T>,
    device: DeviceId,
    snapshot: &ResolvedSnapshot,
    sector: u64,
    len: u64,
    sink: &mut S,
) -> Result<(), S::Fault>
    requires { AreAskedOfChunk S.past sink.old walker.old.stack device snapshot.now sector len }
    ensures { IsSnapshotWritten S.past result sink.old sink.new walker.old walker.new
        snapshot.now device sector len }
{
    if !walker.is_valid(device) {
        return sink.piece(Piece::Error { len });
    }
    walker.recall_soundness();
    match walker.find(device, snapshot.chunk.chunk_of(sector)) {
        Some(number) => {
            let at = store_sector(snapshot, number, sector);
            write_store(walker, &snapshot.store, at, len, sink)
        }
        None => write_new_chunk(walker, device, snapshot, sector, len, sink),
    }
}

/// Writes sectors of a chunk that a valid snapshot hasn't taken yet. If the store is full and of the kind that
/// keeps its snapshot valid, all sectors fail and nothing changes.
fn write_new_chunk<S: Sink, T: Taken>(
    walker: &mut Walker<'_, T>,
    device: DeviceId,
    snapshot: &ResolvedSnapshot,
    sector: u64,
    len: u64,
    sink: &mut S,
) -> Result<(), S::Fault>
    requires asked { AreAskedOfChunk S.past sink.old walker.old.stack device snapshot.now sector len }
    requires valid { (taken_at walker.old.state device).valid ≡ true }
    requires fresh { number_in (sector / snapshot.now.chunk) (taken_at walker.old.state device).chunks ≡ None }
    ensures { IsSnapshotWritten S.past result sink.old sink.new walker.old walker.new
        snapshot.now device sector len }
{
    walker.recall_soundness();
    walker.recall_tables();
    if is_refused(walker, device, snapshot) {
        return sink.piece(Piece::Error { len });
    }
    let chunk = snapshot.chunk.chunk_of(sector);
    let number = walker.count(device);
    let Some(home) = take_new_chunk(walker, device, snapshot, chunk, number, sink)? else {
        return sink.piece(Piece::Error { len });
    };
    let distance = snapshot.chunk.distance_in(sector);
    if distance + len <= home.len {
        return sink.piece(Piece::Write {
            disk: home.disk,
            start: home.start + distance,
            len,
        });
    }
    let at = store_sector(snapshot, number, sector);
    write_store(walker, &snapshot.store, at, len, sink)
}

/// Whether a write to a chunk that isn't taken is refused: the store is full and of the kind that keeps its
/// snapshot valid.
fn is_refused<T: Taken>(
    walker: &Walker<'_, T>,
    device: DeviceId,
    snapshot: &ResolvedSnapshot,
) -> bool
    requires device { device < length walker.now.stack.devices }
    requires is { snapshot_at walker.now.stack device ≡ Some snapshot.now }
    ensures { result ≡ (is_keeping snapshot.now.kind
        && not (has_place walker.now.stack snapshot.now (length (taken_at walker.now.state device).chunks))) }
{
    matches!(snapshot.kind, StoreKind::Keeping) && walker.is_full(device)
}

/// Hands over the writes to sectors of a store, one piece for each run of sectors that are consecutive on a disk.
fn write_store<S: Sink, T: Taken>(
    walker: &mut Walker<'_, T>,
    store: &Lower,
    sector: u64,
    len: u64,
    sink: &mut S,
) -> Result<(), S::Fault>
    requires inside { sector + len ≤ lower_len walker.old.stack store.now }
    requires store { IsStore walker.old.stack store.now }
    requires sink { HasRoomFor S.past sink.old walker.old.stack 0 }
    ensures { IsWalked S.past result sink.old sink.new walker.old walker.new
        (keep (store_writes walker.old.stack store.now sector len) walker.old.state) 0 }
{
    walker.recall_soundness();
    let mut at = sector;
    let mut left = len;
    while left > 0 {
        let home = first_homes(walker, *store, at, left);
        sink.piece(Piece::Write {
            disk: home.disk,
            start: home.start,
            len: home.len,
        })?;
        at += home.len;
        left -= home.len;
    }
    Ok(())
}
