//! Taking a chunk, which a write to a snapshot or its origin does before it writes.
//!
//! A chunk that isn't taken yet is first tested for read errors, then copied from the origin to its place in the
//! store, and then recorded as taken. All copies are handed over before the write, so they read the old data. The
//! test and the copies work on stretches, never on single sectors; the first stretch is looked up once for both,
//! and a copy ends where the stretch on either side does. What is read, and where the store's sectors lie,
//! doesn't depend on the depth at which the snapshot was reached, so look-ups use all levels.

ghost use Rattle.dm_map.specs.Prelude.{Some, IfNone, IfOk, IfSome, is_some, length, false, true, Description, lower_len, IsStore, AreAdded, IsFirstHomes, AreInSnapshot, IsTakenAs, can_take, copies, copy_to, first_of, is_settled, reads_all, take_chunk, has_place, store_sector, taken_at, keep, ground_unit, IsFirstOf, IsGroundInStack, diskless_len, piece_len, units_in, units_of, IsOnDisk, IsOnDisks, stack_state, HasRoomFor, IsWalked};
ghost use Rattle.dm_stack.specs.declared.checks.graph.TheConstants.{MOST_DEPTH};
ghost use Rattle.dm_map.specs.declared.walk.stretch.Ground.TheVariants.{Fails};
ghost use Rattle.std.specs.Prelude.{◌≡◌, ◌≢◌, ◌+◌, ◌*◌, ◌%◌, ◌<◌, ◌≤◌};

use crate::pieces::piece::Piece;
use crate::pieces::sink::Sink;
use crate::state::taken::Taken;
use crate::state::walker::Walker;
use crate::walk::chunk::store_start;
use crate::walk::homes::{HomeStretch, first_homes};
use crate::walk::stretch::{Ground, Stretch, first_stretch};
use dm_stack::{DeviceId, MOST_DEPTH, ResolvedSnapshot};

/// Takes a chunk of a snapshot before its sectors are written: copies it to the store, and records that the store
/// holds it.
///
/// Does nothing if the chunk is taken already or the snapshot is lost. If the store is full, or the origin can't
/// be read without an error, the snapshot becomes lost and the chunk isn't taken.
pub(crate) fn take_chunk<S: Sink, T: Taken>(
    walker: &mut Walker<'_, T>,
    device: DeviceId,
    snapshot: &ResolvedSnapshot,
    chunk: u64,
    sink: &mut S,
) -> Result<(), S::Fault>
    requires inside { AreInSnapshot walker.old.stack device snapshot.now (first_of snapshot.now chunk) 1 }
    requires sink { HasRoomFor S.past sink.old walker.old.stack 0 }
    ensures { IsWalked S.past result sink.old sink.new walker.old walker.new
        (take_chunk walker.old.stack snapshot.now device chunk walker.old.state) 0 }
{
    if is_settled(walker, device, chunk) {
        return Ok(());
    }
    let number = walker.count(device);
    take_new_chunk(walker, device, snapshot, chunk, number, sink)?;
    Ok(())
}

/// Takes a chunk that a valid snapshot hasn't taken yet, as its `number`th, counted from 0. Returns where the
/// store keeps the first sectors of the chunk, or None if the snapshot became lost.
pub(crate) fn take_new_chunk<S: Sink, T: Taken>(
    walker: &mut Walker<'_, T>,
    device: DeviceId,
    snapshot: &ResolvedSnapshot,
    chunk: u64,
    number: usize,
    sink: &mut S,
) -> Result<Option<HomeStretch>, S::Fault>
    requires inside { AreInSnapshot walker.old.stack device snapshot.now (first_of snapshot.now chunk) 1 }
    requires fresh { is_settled (taken_at walker.old.state device) chunk ≡ false }
    requires number { number ≡ length (taken_at walker.old.state device).chunks }
    requires sink { HasRoomFor S.past sink.old walker.old.stack 0 }
    ensures walked { IsWalked S.past result sink.old sink.new walker.old walker.new
        (take_chunk walker.old.stack snapshot.now device chunk walker.old.state) 0 }
    ensures taken { IfOk result (λ made. IfSome made (λ home.
        IsTakenAs walker.old.stack walker.new.state device snapshot.now chunk number home)) }
    ensures lost { IfOk result (λ made. IfNone made ((taken_at walker.new.state device).valid ≡ false)) }
{
    walker.recall_tables();
    let end = walker.len(device);
    let chunk_size = snapshot.chunk.sectors();
    let first = chunk * chunk_size;
    let count = chunk_size.min(end - first);
    let Some(source) = first_source(walker, device, snapshot, first, count) else {
        walker.invalidate(device);
        return Ok(None);
    };
    let home = copy_chunk(walker, snapshot, number, first, count, source, sink)?;
    walker.take(device, chunk);
    Ok(Some(home))
}

/// Whether nothing is left to do for a chunk, because the chunk is taken or the snapshot is lost.
pub(crate) fn is_settled<T: Taken>(walker: &Walker<'_, T>, device: DeviceId, chunk: u64) -> bool
    requires { device < length walker.now.stack.devices }
    ensures { result ≡ is_settled (taken_at walker.now.state device) chunk }
{
    !walker.is_valid(device) || walker.find(device, chunk).is_some()
}

/// Where the first sectors of a chunk are read from, if the chunk can be taken: the store has room for one more,
/// and the origin reads all `len` sectors from `sector` on without an error.
fn first_source<T: Taken>(
    walker: &mut Walker<'_, T>,
    device: DeviceId,
    snapshot: &ResolvedSnapshot,
    sector: u64,
    len: u64,
) -> Option<Stretch>
    requires some { 1 ≤ len }
    requires inside { AreInSnapshot walker.old.stack device snapshot.now sector len }
    ensures can_take { is_some result
        ≡ can_take walker.old.stack walker.old.state snapshot.now device sector len }
    ensures first { IfSome result (λ source. IsFirstOf walker.new walker.new MOST_DEPTH snapshot.now.origin
        sector len source) }
    ensures same { stack_state walker.new ≡ stack_state walker.old }
    ensures looked { AreAdded walker.old.looked walker.new.looked }
{
    walker.recall_soundness();
    if walker.is_full(device) {
        return None;
    }
    let first = first_stretch(walker, MOST_DEPTH, snapshot.origin, sector, len);
    let mut source = first;
    let mut at = sector;
    let mut left = len;
    'sources: loop {
        if let Ground::Fails = source.ground {
            return None;
        }
        if source.len == left {
            return Some(first);
        }
        at += source.len;
        left -= source.len;
        source = first_stretch(walker, MOST_DEPTH, snapshot.origin, at, left);
    }
}

/// Copies sectors from the start of a chunk, all of which read without an error, from the origin to the store's
/// place for this number. `first` is the first stretch of the chunk in the origin; returns the first stretch of
/// its place in the store.
fn copy_chunk<S: Sink, T: Taken>(
    walker: &mut Walker<'_, T>,
    snapshot: &ResolvedSnapshot,
    number: usize,
    sector: u64,
    len: u64,
    first: Stretch,
    sink: &mut S,
) -> Result<HomeStretch, S::Fault>
    requires some { 1 ≤ len }
    requires origin { sector + len ≤ lower_len walker.old.stack snapshot.now.origin }
    requires store { IsStore walker.old.stack snapshot.now.store }
    requires place { has_place walker.old.stack snapshot.now number ≡ true }
    requires begins { sector % snapshot.now.chunk ≡ 0 }
    requires part { sector % snapshot.now.chunk + len ≤ snapshot.now.chunk }
    requires reads { reads_all walker.old.stack walker.old.state snapshot.now.origin sector len ≡ true }
    requires first { IsFirstOf walker.old walker.old MOST_DEPTH snapshot.now.origin sector len first }
    requires sink { HasRoomFor S.past sink.old walker.old.stack 0 }
    ensures walked { IsWalked S.past result sink.old sink.new walker.old walker.new
        (keep (copies walker.old.stack walker.old.state snapshot.now number sector len)
        walker.old.state) 0 }
    ensures home { IfOk result (λ home. IsFirstHomes walker.old.stack snapshot.now.store
        (store_sector snapshot.now number sector) len home) }
{
    walker.recall_soundness();
    let mut to = store_start(snapshot, number);
    let home = first_homes(walker, snapshot.store, to, len);
    let mut source = first;
    let mut target = home;
    let mut from = sector;
    let mut left = len;
    'copies: loop {
        let part = source.len.min(target.len);
        sink.piece(copy_piece(&source, &target, part))?;
        left -= part;
        if left == 0 {
            return Ok(home);
        }
        from += part;
        to += part;
        source = first_stretch(walker, MOST_DEPTH, snapshot.origin, from, left);
        target = first_homes(walker, snapshot.store, to, left);
    }
}

/// The piece that copies the first `len` sectors of a stretch without read errors to sectors of a store.
fn copy_piece(from: &Stretch, to: &HomeStretch, len: u64) -> Piece
    requires { from.now.ground ≢ Fails }
    ensures units { units_of result
        ≡ units_in (copy_to (ground_unit from.now.ground)
        (record { disk = to.now.disk; sector = to.now.start })) len }
    ensures len { piece_len result ≡ len }
    ensures diskless { diskless_len result ≡ 0 }
    ensures lies { (stack : Description) → IsGroundInStack stack from.now.ground len
        → IsOnDisk stack to.now.disk to.now.start len → IsOnDisks stack result }
{
    match &from.ground {
        Ground::Disk { disk, start } => Piece::Copy {
            disk: *disk,
            start: *start,
            len,
            to: to.disk,
            to_start: to.start,
        },
        Ground::Zeros => Piece::Fill {
            len,
            disk: to.disk,
            start: to.start,
        },
        Ground::Fails => unreachable!(),
    }
}
