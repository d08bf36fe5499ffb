//! Makes the devices of logical volumes, depending on the roles of the volumes.
//!
//! A snapshot maps to a layer of its origin and a layer of its store, so that the visible volumes keep their names
//! (lvm(8), and the output of `dmsetup table` for a group with snapshots). A new role needs an arm in `add_devices`,
//! and in `devices_by` and `layers_of` of `specs/tables/Tables.antt`.

ghost use Rattle.lvm_volume.specs.Prelude.{None, Some, IfOk, OnOk, AllByRecursion, flat_map, zip, Real, Cow, group_view, extents_of, name_at, segments_at, AreSegmentsIn, IsMadeIn, IsNamed, device_name, length_of, origin_line, over_device, own_device, snapshot_line};
ghost use Rattle.lvm_volume.specs.tables.Tables.{devices_in};
ghost use Rattle.std.specs.Prelude.{◌≡◌, ◌++◌, ◌*◌, ◌^◌, ◌<◌};

use crate::fields::source_line::source_line;
use crate::group::physical::Physical;
use crate::group::roles::{Record, Role, extents_of, name_at, segments_at};
use crate::group::segment::Segment;
use crate::group::volume::Volume;
use crate::tables::device_names::{Layer, name_of};
use crate::tables::lines::lines_of;
use dm_table::{DevRef, DeviceSpec, Line, Name, StoreKind, Table, Target};
use std::alloc::{AllocError, Global};

/// The group from which devices are made: its name, the extent size in sectors, its physical volumes and its logical
/// volumes.
#[derive(Drop)]
pub(crate) struct GroupRef<'g> {
    pub name: &'g str,
    pub extent_size: u64,
    pub physicals: &'g [Physical],
    pub volumes: &'g [Volume],
}

/// The devices of all volumes, in order, given the roles of the volumes.
pub(crate) fn devices_of(
    alloc: Global,
    group: &GroupRef<'_>,
    roles: &[Role],
) -> Result<Vec<DeviceSpec>, AllocError>
    requires { AllByRecursion (IsMadeIn (group_view group.now)) (zip roles.now group.now.volumes.now) }
    ensures { IfOk result (λ v. v.items
        ≡ flat_map (devices_in (group_view group.now)) (zip roles.now group.now.volumes.now)) }
{
    let mut devices = Vec::new(alloc);
    for (role, volume) in roles.iter().zip(group.volumes) {
        add_devices(alloc, &mut devices, group, *role, volume)?;
    }
    Ok(devices)
}

/// Appends the devices of one volume.
#[tactic(auto, unfolding(crate::specs::tables::Tables::devices_in))]
fn add_devices(
    alloc: Global,
    devices: &mut Vec<DeviceSpec>,
    group: &GroupRef<'_>,
    role: Role,
    volume: &Volume,
) -> Result<(), AllocError>
    requires { IsMadeIn (group_view group.now) (role, volume.now) }
    ensures { OnOk result
        (devices.new.items ≡ devices.old.items ++ devices_in (group_view group.now) (role, volume.now)) }
{
    match role {
        Role::Plain => devices.push(own_device(alloc, group, volume, volume.ro, None)?)?,
        Role::Origin => {
            devices.push(own_device(alloc, group, volume, false, Some(Layer::Real))?)?;
            devices.push(origin_device(alloc, group, volume)?)?;
        }
        Role::Store(snapshot) => {
            devices.push(own_device(alloc, group, volume, false, Some(Layer::Cow))?)?;
            devices.push(snapshot_device(alloc, group, volume, snapshot)?)?;
        }
        Role::Record | Role::Clashing => {}
    }
    Ok(())
}

/// The device name of a volume, or of a layer of it.
fn volume_name(
    alloc: Global,
    group: &GroupRef<'_>,
    volume: &Volume,
    layer: Option<Layer>,
) -> Result<Name, AllocError>
    requires { IsNamed group.now.name.now volume.now.name layer }
    ensures { IfOk result (λ name. name ≡ device_name group.now.name.now volume.now.name layer) }
{
    name_of(alloc, group.name, volume.name.as_str(), layer)
}

/// The device with a line for each segment of a volume: the volume itself, or its layer.
fn own_device(
    alloc: Global,
    group: &GroupRef<'_>,
    volume: &Volume,
    ro: bool,
    layer: Option<Layer>,
) -> Result<DeviceSpec, AllocError>
    requires name { IsNamed group.now.name.now volume.now.name layer }
    requires segments { AreSegmentsIn (group_view group.now) volume.now.segments }
    ensures { IfOk result (λ device. device ≡ own_device (group_view group.now) volume.now ro layer) }
{
    let name = volume_name(alloc, group, volume, layer)?;
    Ok(DeviceSpec {
        name,
        ro,
        lines: lines_of(
            alloc,
            group.extent_size,
            group.physicals,
            volume.segments.as_slice(),
        )?,
        at: source_line(volume.line),
    })
}

/// The visible device of an origin, which maps to the layer `real`.
fn origin_device(
    alloc: Global,
    group: &GroupRef<'_>,
    volume: &Volume,
) -> Result<DeviceSpec, AllocError>
    requires layer { IsNamed group.now.name.now volume.now.name (Some Real) }
    requires name { IsNamed group.now.name.now volume.now.name None }
    requires len { length_of (group_view group.now) volume.now.segments < 2 ^ 64 }
    ensures { IfOk result (λ device.
        device ≡ over_device (group_view group.now) volume.now (origin_line (group_view group.now) volume.now)) }
{
    let real = volume_name(alloc, group, volume, Some(Layer::Real))?;
    over_device(alloc, group, volume, origin_line(group, volume, real))
}

/// The visible device of a snapshot; `volume` is its store.
fn snapshot_device(
    alloc: Global,
    group: &GroupRef<'_>,
    volume: &Volume,
    snapshot: Record,
) -> Result<DeviceSpec, AllocError>
    requires layer { IsNamed group.now.name.now volume.now.name (Some Cow) }
    requires name { IsNamed group.now.name.now volume.now.name None }
    requires len { length_of (group_view group.now) (segments_at group.now.volumes.now snapshot.origin)
        < 2 ^ 64 }
    requires origin { IsNamed group.now.name.now (name_at group.now.volumes.now snapshot.origin) (Some Real) }
    ensures { IfOk result (λ device. device
        ≡ over_device (group_view group.now) volume.now (snapshot_line (group_view group.now) volume.now snapshot)) }
{
    let cow = volume_name(alloc, group, volume, Some(Layer::Cow))?;
    let line = snapshot_line(alloc, group, volume, cow, snapshot)?;
    over_device(alloc, group, volume, line)
}

/// The visible device of an origin or snapshot, with its only line.
fn over_device(
    alloc: Global,
    group: &GroupRef<'_>,
    volume: &Volume,
    line: Line,
) -> Result<DeviceSpec, AllocError>
    requires { IsNamed group.now.name.now volume.now.name None }
    ensures { IfOk result (λ device. device ≡ over_device (group_view group.now) volume.now line) }
{
    let mut lines = Vec::new(alloc);
    lines.push(line)?;
    Ok(DeviceSpec {
        name: volume_name(alloc, group, volume, None)?,
        ro: volume.ro,
        lines: Table::from_vec(lines),
        at: source_line(volume.line),
    })
}

/// The line of an origin's visible device, which maps to the layer `real`.
fn origin_line(group: &GroupRef<'_>, volume: &Volume, real: Name) -> Line
    requires len { length_of (group_view group.now) volume.now.segments < 2 ^ 64 }
    requires name { real ≡ device_name group.now.name.now volume.now.name (Some Real) }
    ensures { result ≡ origin_line (group_view group.now) volume.now }
{
    Line {
        start: 0,
        len: length_of(group.extent_size, volume.segments.as_slice()),
        target: Target::Origin {
            origin: DevRef::Device(real),
        },
        at: source_line(volume.line),
    }
}

/// The line of the snapshot whose store is `volume`; it maps to the origin's layer `real` and the store's layer `cow`.
fn snapshot_line(
    alloc: Global,
    group: &GroupRef<'_>,
    volume: &Volume,
    cow: Name,
    snapshot: Record,
) -> Result<Line, AllocError>
    requires len { length_of (group_view group.now) (segments_at group.now.volumes.now snapshot.origin)
        < 2 ^ 64 }
    requires origin { IsNamed group.now.name.now (name_at group.now.volumes.now snapshot.origin) (Some Real) }
    requires store { cow ≡ device_name group.now.name.now volume.now.name (Some Cow) }
    ensures { IfOk result (λ line. line ≡ snapshot_line (group_view group.now) volume.now snapshot) }
{
    let origin = name_at(group.volumes, snapshot.origin);
    let real = name_of(alloc, group.name, origin, Some(Layer::Real))?;
    Ok(Line {
        start: 0,
        len: length_of(
            group.extent_size,
            segments_at(group.volumes, snapshot.origin),
        ),
        target: Target::Snapshot {
            origin: DevRef::Device(real),
            store: DevRef::Device(cow),
            kind: StoreKind::Persistent,
            chunk: snapshot.chunk_size,
        },
        at: source_line(snapshot.line),
    })
}

/// The length in sectors of a volume with these segments.
fn length_of(extent_size: u64, segments: &[Segment]) -> u64
    requires { extents_of segments.now * extent_size < 2 ^ 64 }
    ensures { result ≡ extents_of segments.now * extent_size }
{
    (extents_of(segments) * u128::from(extent_size)) as u64
}
