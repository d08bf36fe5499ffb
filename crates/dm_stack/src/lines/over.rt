//! The snapshots of each origin, which are stored with the origin's line.
//!
//! All snapshots of a stack are collected once per load. Each origin line has its own copy of the origin's
//! snapshots, so that a write needs no search for them; a snapshot's line reuses the entry collected for the
//! snapshot.

ghost use Rattle.dm_stack.specs.Prelude.{IfOk, IfSome, OnOk, filter, Contains, flat_map, list_any, is_same_lower, all_over, copied, has_crowd, is_whole, over_of, resolved_snapshot};
ghost use Rattle.std.specs.Prelude.{◌≡◌, ◌++◌};

use crate::id::{DeviceId, Lower};
use crate::lines::chunk_size::ChunkSize;
use crate::lines::resolved_line::{ResolvedOver, ResolvedSnapshot};
use crate::names::indexed::Indexed;
use dm_table::{DevRef, DeviceSpec, Line, Listed, StoreKind, Target};
use std::alloc::{AllocError, Global};

/// All snapshots of a stack, in the order of their devices.
///
/// Fails only when out of memory. Cost: a walk over the lines, with memory for each snapshot.
fn all_over(alloc: Global, stack: &Indexed) -> Result<Vec<ResolvedOver>, AllocError>
    ensures { IfOk result (λ over. over.items ≡ all_over stack.now) }
{
    let mut over = Vec::new(alloc);
    for (id, device) in stack.devices().iter().enumerate() {
        add_lines(&mut over, stack, DeviceId::new(id), device.lines.as_slice())?;
    }
    Ok(over)
}

/// The snapshots for origin lines to copy; none if a snapshot or an origin isn't the only line of its table,
/// which a load refuses. Without this rule, there could be as many copies as the square of the number of lines.
///
/// Fails only when out of memory. Cost: two walks over the lines, with memory for each snapshot.
pub(crate) fn copied(alloc: Global, stack: &Indexed) -> Result<Vec<ResolvedOver>, AllocError>
    ensures { IfOk result (λ over. over.items ≡ copied stack.now) }
{
    let over = all_over(alloc, stack)?;
    if !over.is_empty() && has_crowds(stack.devices()) {
        return Ok(Vec::new(alloc));
    }
    Ok(over)
}

/// Whether one of these devices has a snapshot or an origin among several lines.
fn has_crowds(devices: &[DeviceSpec]) -> bool
    ensures { result ≡ list_any has_crowd devices.now }
{
    devices.iter().any(has_crowd)
}

/// Whether a device has a snapshot or an origin among several lines.
fn has_crowd(device: &DeviceSpec) -> bool
    ensures { result ≡ has_crowd device.now }
{
    let lines = device.lines.as_slice();
    lines.len() != 1 && has_whole(lines)
}

/// Whether one of these lines is a snapshot or an origin, which must be the only line of its table.
fn has_whole(lines: &[Line]) -> bool
    ensures { result ≡ list_any (λ line. is_whole line.target) lines.now }
{
    lines.iter().any(|line| is_whole(&line.target))
}

/// Whether the target is a snapshot or an origin, whose line must be the only one of its table.
fn is_whole(target: &Target) -> bool
    ensures { result ≡ is_whole target.now }
{
    matches!(target, Target::Snapshot { .. } | Target::Origin { .. })
}

/// Adds the snapshots among the lines of a device.
fn add_lines(
    over: &mut Vec<ResolvedOver>,
    stack: &Indexed,
    device: DeviceId,
    lines: &[Line],
) -> Result<(), AllocError>
    ensures { OnOk result (over.new.items
        ≡ over.old.items ++ flat_map (λ line. over_of stack.now device line.target) lines.now) }
{
    for line in lines {
        if let Target::Snapshot {
            origin,
            store,
            kind,
            chunk,
        } = &line.target
        {
            let snapshot = resolved_snapshot(stack, origin, store, *kind, *chunk);
            over.push(ResolvedOver { device, snapshot })?;
        }
    }
    Ok(())
}

/// The snapshot that a line describes, with ids in place of names.
pub(crate) fn resolved_snapshot(
    stack: &Indexed,
    origin: &DevRef,
    store: &DevRef,
    kind: StoreKind,
    chunk: u64,
) -> ResolvedSnapshot
    ensures { result ≡ resolved_snapshot stack.now origin.now store.now kind chunk }
{
    ResolvedSnapshot {
        origin: stack.lower_of(origin),
        store: stack.lower_of(store),
        kind,
        chunk: ChunkSize::new(chunk),
    }
}

/// The snapshot that a device is, if that snapshot is the next in this list, which is in the order of devices;
/// `next` then advances.
///
/// The function is here for speed alone: if it returns None, the names in the device's line are looked up.
pub(crate) fn snapshot_of_next<'a>(
    over: &'a [ResolvedOver],
    next: &mut usize,
    device: DeviceId,
) -> Option<&'a ResolvedSnapshot>
    ensures { IfSome result
        (λ found. Contains over.now (record { device = device; snapshot = found.now })) }
{
    let one = over.get(*next)?;
    if one.device != device {
        return None;
    }
    *next += 1;
    Some(&one.snapshot)
}

/// The snapshots of the given list whose origin is this device or disk.
///
/// Fails only when out of memory. Cost: a walk over the list, with memory for the snapshots found.
pub(crate) fn snapshots_over(
    alloc: Global,
    all: &[ResolvedOver],
    to: Lower,
) -> Result<Listed<ResolvedOver>, AllocError>
    ensures { IfOk result (λ over. over ≡ filter (λ one. is_same_lower one.snapshot.origin to) all.now) }
{
    let mut over = Vec::new(alloc);
    for one in all {
        if one.snapshot.origin == to {
            over.push(*one)?;
        }
    }
    Ok(Listed::from_vec(over))
}
