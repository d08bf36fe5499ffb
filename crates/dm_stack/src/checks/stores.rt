//! The check of which devices may hold the exception store of a snapshot.
//!
//! A store and the devices below it must be writable and have only linear and striped lines, down to disks. The
//! rounds that find depths check this for all devices at once: every other device gets a link to itself, which
//! makes the device and all devices above it too deep, like devices on a cycle.

ghost use Rattle.dm_stack.specs.Prelude.{IfOk, None, list_all, result_err, first_or, links, IsClosed, depths_to, links_in, store, has_deep_store, is_plain, is_shallow, may_store, store_links, store_links_of};
ghost use Rattle.dm_stack.specs.declared.checks.graph.TheConstants.{FOLLOWED_LEVELS};
ghost use Rattle.std.specs.Prelude.{◌≡◌};

use crate::checks::faults::check_by_ids;
use crate::checks::graph::{MOST_DEPTH, depths};
use crate::id::Lower;
use crate::lines::resolved::Resolved;
use crate::lines::resolved_line::ResolvedTarget;
use dm_table::{DeviceSpec, Line, LoadFault, LoadKind, Target};
use std::alloc::{AllocError, Global};

/// The depth of each device as a part of stores, which is above `MOST_DEPTH` if the device can't hold a store.
///
/// Fails only when out of memory. Cost: the same as that of `depths`.
pub(crate) fn store_depths(
    alloc: Global,
    stack: &Resolved,
    named: &[Vec<usize>],
) -> Result<Vec<u32>, AllocError>
    requires named { links_in named.now ≡ links stack.now }
    requires closed { IsClosed (links stack.now) }
    ensures { IfOk result (λ depths. depths.items ≡ depths_to (store_links stack.now) FOLLOWED_LEVELS) }
{
    let named = store_links(alloc, stack, named)?;
    depths(alloc, &named)
}

/// For each device, the ids of the devices that it names, and also its own id if it can't hold a store.
fn store_links(
    alloc: Global,
    stack: &Resolved,
    named: &[Vec<usize>],
) -> Result<Vec<Vec<usize>>, AllocError>
    requires { links_in named.now ≡ links stack.now }
    ensures { IfOk result (λ marked. links_in marked.items ≡ store_links stack.now) }
{
    let mut marked = Vec::new(alloc);
    for (id, device) in stack.devices().iter().enumerate() {
        marked.push(store_links_of(may_store(device), id, &named[id])?)?;
    }
    Ok(marked)
}

/// The ids that a device's lines name, and its own id, which makes a cycle, if it can't hold a store.
fn store_links_of(may: bool, id: usize, links: &Vec<usize>) -> Result<Vec<usize>, AllocError>
    ensures { IfOk result (λ marked. marked.items ≡ store_links_of may id links.now.items) }
{
    let mut marked = links.clone()?;
    if !may {
        marked.push(id)?;
    }
    Ok(marked)
}

/// Whether a device can hold a store, judged only by its own lines and its read-only flag.
fn may_store(device: &DeviceSpec) -> bool
    ensures { result ≡ may_store device.now.ro device.now.lines }
{
    !device.ro && are_plain(device.lines.as_slice())
}

/// Whether all of these lines may be part of a store.
fn are_plain(lines: &[Line]) -> bool
    ensures { result ≡ list_all (λ line. is_plain line.target) lines.now }
{
    lines.iter().all(|line| is_plain(&line.target))
}

/// Whether a line with this target may be part of a store.
fn is_plain(target: &Target) -> bool
    ensures { result ≡ is_plain target.now }
{
    match target {
        Target::Linear { .. } | Target::Striped { .. } => true,
        _ => false,
    }
}

/// Fails at the first snapshot whose store isn't of a permitted form; `depths` is the result of `store_depths`.
///
/// Cost: a walk over the lines.
pub(crate) fn check_stores(stack: &Resolved, depths: &[u32]) -> Result<(), LoadFault>
    requires { depths.now ≡ depths_to (store_links stack.now) FOLLOWED_LEVELS }
    ensures { result_err result ≡ first_or (store stack.now) None }
{
    check_by_ids(
        LoadKind::Store,
        stack,
        |_, by_ids, _| has_deep_store(depths, &by_ids.target),
    )
}

/// Whether a target is a snapshot whose store isn't of a permitted form.
fn has_deep_store(depths: &[u32], target: &ResolvedTarget) -> bool
    ensures { result ≡ has_deep_store depths.now target.now }
{
    match target {
        ResolvedTarget::Snapshot(snapshot) => !is_shallow(depths, snapshot.store),
        _ => false,
    }
}

/// Whether a store is a disk, or a device whose depth in this list is within the limit.
fn is_shallow(depths: &[u32], lower: Lower) -> bool
    ensures { result ≡ is_shallow depths.now lower }
{
    match lower {
        Lower::Device(id) => match depths.get(id.index()) {
            Some(depth) => *depth <= MOST_DEPTH,
            None => true,
        },
        Lower::Disk(_) => true,
    }
}
