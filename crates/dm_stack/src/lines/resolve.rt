//! Gives lines ids in place of names. Each name is looked up once, or twice in a load that is refused later.
//!
//! Lines get ids right after the names are checked. An unknown name isn't refused here, but gets an id past the
//! last one, which `names_missing` finds. No later check looks up a name. To add a target, add an arm to `target`
//! and to `resolved_target` in the specs.

ghost use Rattle.dm_stack.specs.Prelude.{IfOk, IfSome, map, All, resolved_columns, resolved_line, resolved_target, resolved_device, IsSnapshotOf, copied};
ghost use Rattle.std.specs.Prelude.{◌≡◌};

use crate::checks::layout::end_of;
use crate::id::DeviceId;
use crate::lines::divisor::Divisor;
use crate::lines::over::{copied, resolved_snapshot, snapshot_of_next, snapshots_over};
use crate::lines::resolved_columns::{ResolvedColumn, ResolvedColumns};
use crate::lines::resolved_line::{
    ResolvedLine, ResolvedOrigin, ResolvedOver, ResolvedSnapshot, ResolvedTarget,
};
use crate::lines::resolved_table::{ResolvedDevice, ResolvedTable};
use crate::names::indexed::Indexed;
use dm_table::{Column, Line, Target};
use std::alloc::{AllocError, Global};

/// Makes the devices with ids in place of names, in order.
///
/// Fails only when out of memory. Cost: linear in the lines and their columns, and in the snapshots for each line
/// of an origin.
pub(crate) fn resolved_devices(
    alloc: Global,
    stack: &Indexed,
) -> Result<Vec<ResolvedDevice>, AllocError>
    ensures { IfOk result (λ found. found.items ≡ map (resolved_device stack.now) stack.now.devices) }
{
    let over = copied(alloc, stack)?;
    let devices = stack.devices();
    let mut found = Vec::with_capacity(alloc, devices.len())?;
    let mut next = 0;
    for (id, device) in devices.iter().enumerate() {
        let lines = device.lines.as_slice();
        let own = snapshot_of_next(&over, &mut next, DeviceId::new(id));
        found.push(ResolvedDevice {
            end: end_of(lines),
            ro: device.ro,
            table: table(alloc, stack, &over, own, lines)?,
        })?;
    }
    Ok(found)
}

/// Makes the lines of a device with ids. `over` contains all snapshots for origins to copy; `own` is the device's
/// own snapshot.
fn table(
    alloc: Global,
    stack: &Indexed,
    over: &[ResolvedOver],
    own: Option<&ResolvedSnapshot>,
    lines: &[Line],
) -> Result<ResolvedTable, AllocError>
    requires over { over.now ≡ copied stack.now }
    requires own { IfSome own
        (λ found. All (λ line. IsSnapshotOf stack.now found.now line.target) lines.now) }
    ensures { IfOk result (λ table. table ≡ map (resolved_line stack.now) lines.now) }
{
    let mut by_ids = Vec::with_capacity(alloc, lines.len())?;
    for line in lines {
        let target = target(alloc, stack, over, own, &line.target)?;
        by_ids.push(ResolvedLine {
            start: line.start,
            len: line.len,
            target,
        })?;
    }
    ResolvedTable::from_vec(alloc, by_ids)
}

/// Makes a target with ids. The result for a snapshot is `own`, if that isn't None.
fn target(
    alloc: Global,
    stack: &Indexed,
    over: &[ResolvedOver],
    own: Option<&ResolvedSnapshot>,
    target: &Target,
) -> Result<ResolvedTarget, AllocError>
    requires over { over.now ≡ copied stack.now }
    requires own { IfSome own (λ found. IsSnapshotOf stack.now found.now target.now) }
    ensures { IfOk result (λ by_ids. by_ids ≡ resolved_target stack.now target.now) }
{
    match target {
        Target::Linear { to, offset } => Ok(ResolvedTarget::Linear {
            to: stack.lower_of(to),
            offset: *offset,
        }),
        Target::Striped { chunk, columns } => Ok(ResolvedTarget::Striped {
            chunk: Divisor::new(*chunk),
            columns: columns_by_ids(alloc, stack, columns.as_slice())?,
        }),
        Target::Zero => Ok(ResolvedTarget::Zero),
        Target::Error => Ok(ResolvedTarget::Error),
        Target::Snapshot {
            origin,
            store,
            kind,
            chunk,
        } => Ok(ResolvedTarget::Snapshot(match own {
            Some(own) => *own,
            None => resolved_snapshot(stack, origin, store, *kind, *chunk),
        })),
        Target::Origin { origin } => {
            let to = stack.lower_of(origin);
            let over = snapshots_over(alloc, over, to)?;
            Ok(ResolvedTarget::Origin(ResolvedOrigin { to, over }))
        }
    }
}

/// Makes the columns of a striped line with ids.
fn columns_by_ids(
    alloc: Global,
    stack: &Indexed,
    columns: &[Column],
) -> Result<ResolvedColumns, AllocError>
    ensures { IfOk result (λ by_ids. by_ids ≡ resolved_columns stack.now columns.now) }
{
    let mut by_ids = Vec::new(alloc);
    for column in columns {
        by_ids.push(ResolvedColumn {
            to: stack.lower_of(&column.to),
            offset: column.offset,
        })?;
    }
    ResolvedColumns::from_vec(alloc, by_ids)
}
