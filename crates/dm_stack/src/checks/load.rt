//! Runs the checks of a load in their order, and collects what a stack keeps from them.
//!
//! Each check fails with its first fault, and no check runs after one that failed, so later checks can rely on
//! earlier ones. To add a check, add it to the order in this module and in `specs/checks/Soundness.antt`.

ghost use Rattle.dm_stack.specs.Prelude.{IfErr, IfOk, None, OnOk, map, take, Source, IsMemoryFault, first_fault, described, links, IsClosed, IsFirstRing, depths_to, IsLoaded, stack_depth, HasNoCycle, IsFirstCycle, IsRefusedBy, IsSound, checks_before, store_links, AreFirst};
ghost use Rattle.dm_stack.specs.declared.checks.graph.TheConstants.{FOLLOWED_LEVELS};
ghost use Rattle.std.specs.Prelude.{◌≡◌, ◌⊎◌};

use crate::checks::depth::{check_depths, deepest};
use crate::checks::faults::{or_out_of_memory, refuse};
use crate::checks::graph::{depths, first_cycle};
use crate::checks::layout::check_lengths;
use crate::checks::limits::{check_counts, check_numbers};
use crate::checks::lines::{BadLines, bad_lines};
use crate::checks::links::links;
use crate::checks::names::{Names, check_names};
use crate::checks::snapshots::snapshots;
use crate::checks::store_limit::check_places;
use crate::checks::stores::{check_stores, store_depths};
use crate::id::DeviceId;
use crate::lines::resolve::resolved_devices;
use crate::lines::resolved::Resolved;
use crate::lines::resolved_table::ResolvedDevice;
use crate::names::indexed::Indexed;
use dm_table::{DeviceSpec, Disk, LoadFault, LoadKind};
use std::alloc::{AllocError, Global};

/// What a stack keeps in addition to the lists that it was loaded from.
#[derive(Drop)]
pub(crate) struct Checked {
    pub names: Names,
    pub found: Vec<ResolvedDevice>,
    pub depth: u32,
    pub snapshots: Vec<DeviceId>,
}

/// The depth of each device, its depth as a part of stores, and the first device on a cycle.
#[derive(Drop)]
struct Graph {
    depths: Vec<u32>,
    store_depths: Vec<u32>,
    cycle: Option<usize>,
}

/// Runs the checks of a load, up to the first that finds a fault.
///
/// Checks that can fail late are in separate functions, which own no memory that a failure would have to free.
///
/// Cost: near-linear in lines, columns, devices and disks, and, for each device that is too deep, a search of all
/// that it reaches. Fails with `Memory` if an allocation is refused.
pub(crate) fn check(
    alloc: Global,
    devices: &[DeviceSpec],
    disks: &[Disk],
) -> Result<Checked, LoadFault>
    ensures loaded { IfOk result (λ checked. IsLoaded (described devices.now disks.now)
        checked.names.devices checked.names.disks checked.found.items checked.depth
        checked.snapshots.items) }
    ensures fault { IfErr result (λ fault.
        IsRefusedBy (described devices.now disks.now) fault ⊎ IsMemoryFault Source fault) }
{
    let names = check_texts(alloc, devices, disks)?;
    let indexed = Indexed::new(devices, disks, &names.devices, &names.disks);
    let found = or_out_of_memory(resolved_devices(alloc, &indexed))?;
    let stack = Resolved::new(devices, disks, &found);
    let depth = check_ids(alloc, &stack)?;
    let snapshots = or_out_of_memory(snapshots(alloc, devices))?;
    Ok(Checked {
        names,
        found,
        depth,
        snapshots,
    })
}

/// Runs the three checks that need no ids (counts, numbers, names), and returns the indexes of the names.
fn check_texts(alloc: Global, devices: &[DeviceSpec], disks: &[Disk]) -> Result<Names, LoadFault>
    ensures devices { IfOk result (λ names. names.devices ≡ map (λ device. device.name) devices.now) }
    ensures disks { IfOk result (λ names. names.disks ≡ map (λ disk. disk.name) disks.now) }
    ensures passed { OnOk result (first_fault (take 3 (checks_before (described devices.now disks.now))) ≡ None) }
    ensures fault { IfErr result (λ fault.
        IsRefusedBy (described devices.now disks.now) fault ⊎ IsMemoryFault Source fault) }
{
    check_counts(devices, disks)?;
    check_numbers(devices, disks)?;
    let names = check_names(alloc, devices, disks)?;
    Ok(names)
}

/// Runs the checks that use ids, and returns the depth of the stack.
fn check_ids(alloc: Global, stack: &Resolved) -> Result<u32, LoadFault>
    requires { first_fault (take 3 (checks_before stack.now)) ≡ None }
    ensures sound { OnOk result (IsSound stack.now) }
    ensures depth { IfOk result (λ depth. depth ≡ stack_depth stack.now) }
    ensures fault { IfErr result (λ fault. IsRefusedBy stack.now fault ⊎ IsMemoryFault Source fault) }
{
    let found = bad_lines(stack);
    check_lengths(stack, found.empty)?;
    refuse(found.misplaced)?;
    refuse(found.unknown)?;
    let graph = or_out_of_memory(follow(alloc, stack))?;
    check_graph(stack, &found, &graph)?;
    Ok(deepest(&graph.depths))
}

/// Runs the check for cycles and all later checks, given the cycle and the depths that were found.
fn check_graph(stack: &Resolved, found: &BadLines, graph: &Graph) -> Result<(), LoadFault>
    requires lines { AreFirst stack.now found.now }
    requires before { first_fault (checks_before stack.now) ≡ None }
    requires depths { graph.now.depths.items ≡ depths_to (links stack.now) FOLLOWED_LEVELS }
    requires stores { graph.now.store_depths.items ≡ depths_to (store_links stack.now) FOLLOWED_LEVELS }
    requires cycle { IsFirstRing (links stack.now) graph.now.cycle }
    ensures sound { OnOk result (IsSound stack.now) }
    ensures fault { IfErr result (IsRefusedBy stack.now) }
{
    check_cycles(stack, graph.cycle)?;
    check_depths(stack.devices(), &graph.depths)?;
    refuse(found.stripe)?;
    refuse(found.range)?;
    refuse(found.snapshot)?;
    check_stores(stack, &graph.store_depths)?;
    check_places(stack)
}

/// Finds the first device on a cycle, the depth of each device, and its depth as a part of stores.
fn follow(alloc: Global, stack: &Resolved) -> Result<Graph, AllocError>
    requires { IsClosed (links stack.now) }
    ensures depths { IfOk result (λ graph. graph.depths.items ≡ depths_to (links stack.now) FOLLOWED_LEVELS) }
    ensures stores { IfOk result (λ graph. graph.store_depths.items ≡ depths_to (store_links stack.now) FOLLOWED_LEVELS) }
    ensures cycle { IfOk result (λ graph. IsFirstRing (links stack.now) graph.cycle) }
{
    let links = links(alloc, stack)?;
    let depths = depths(alloc, &links)?;
    let cycle = first_cycle(alloc, &links, &depths)?;
    let store_depths = store_depths(alloc, stack, &links)?;
    Ok(Graph {
        depths,
        store_depths,
        cycle,
    })
}

/// Fails at the device with the index `cycle`, unless `cycle` is None.
fn check_cycles(stack: &Resolved, cycle: Option<usize>) -> Result<(), LoadFault>
    requires { IsFirstRing (links stack.now) cycle }
    ensures passed { OnOk result (HasNoCycle stack.now) }
    ensures fault { IfErr result (IsFirstCycle stack.now) }
{
    match cycle {
        Some(device) => Err(LoadFault {
            kind: LoadKind::Cycle,
            at: stack.devices()[device].at,
        }),
        None => Ok(()),
    }
}
