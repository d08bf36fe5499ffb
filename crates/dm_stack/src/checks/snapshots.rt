//! The check of snapshots and origins against their tables and the origins that they name, and the list of
//! snapshots.
//!
//! The line of a snapshot or an origin is the only one of its table, and as long as the origin that it names.
//! Mapping relies on these rules, and shifts instead of dividing by a chunk size, so no rule may be dropped.

ghost use Rattle.dm_stack.specs.Prelude.{[], IfOk, OnOk, described, resolved_target, has_snapshot, snapshots, is_bad_snapshot};
ghost use Rattle.std.specs.Prelude.{◌≡◌, ◌∷◌, ◌++◌, if◌then◌else◌};

use crate::id::DeviceId;
use crate::lines::chunk_size::is_bad_chunk;
use crate::lines::resolved::Resolved;
use crate::lines::resolved_line::ResolvedTarget;
use dm_table::{DeviceSpec, Line, Target};
use std::alloc::{AllocError, Global};

/// Whether a line in a device of `lines` lines is a snapshot or an origin, but not the only line or not as long
/// as the origin that it names; or a snapshot whose chunk size isn't a power of two from 1 to 1,024 sectors.
pub(crate) fn is_bad_snapshot(
    stack: &Resolved,
    lines: usize,
    line: &Line,
    target: &ResolvedTarget,
) -> bool
    ensures { target.now ≡ resolved_target stack.now line.now.target
        → result ≡ is_bad_snapshot stack.now lines line.now.len line.now.target }
{
    match (target, &line.target) {
        (ResolvedTarget::Snapshot(snapshot), Target::Snapshot { chunk, .. }) => {
            lines != 1 || is_bad_chunk(*chunk) || line.len != stack.len_of(snapshot.origin)
        }
        (ResolvedTarget::Origin(origin), _) => lines != 1 || line.len != stack.len_of(origin.to),
        _ => false,
    }
}

/// The ids of the devices that are snapshots, in rising order.
///
/// Fails only when out of memory. Cost: a walk over the lines, with memory for one id for each snapshot.
pub(crate) fn snapshots(alloc: Global, devices: &[DeviceSpec]) -> Result<Vec<DeviceId>, AllocError>
    ensures { IfOk result (λ ids. ids.items ≡ snapshots (described devices.now [])) }
{
    let mut ids = Vec::new(alloc);
    for (id, device) in devices.iter().enumerate() {
        add_snapshot(&mut ids, id, device.lines.as_slice())?;
    }
    Ok(ids)
}

/// Adds the id of a device if one of its lines is a snapshot.
fn add_snapshot(ids: &mut Vec<DeviceId>, id: usize, lines: &[Line]) -> Result<(), AllocError>
    ensures { OnOk result
        (ids.new.items ≡ ids.old.items ++ (if has_snapshot lines.now then id ∷ [] else [])) }
{
    if has_snapshot(lines) {
        ids.push(DeviceId::new(id))?;
    }
    Ok(())
}

/// Whether one of these lines is a snapshot.
fn has_snapshot(lines: &[Line]) -> bool
    ensures { result ≡ has_snapshot lines.now }
{
    lines
        .iter()
        .any(|line| matches!(line.target, Target::Snapshot { .. }))
}
