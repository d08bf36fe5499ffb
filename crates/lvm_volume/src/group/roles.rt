//! The roles that the volumes of a group have for its snapshots.
//!
//! A volume whose only segment is of type snapshot is a record: it becomes no device, but names the origin and the
//! store of a snapshot. One pass over the records finds the roles of all volumes; the check of snapshots, the names of
//! devices and the devices themselves depend on the roles.

ghost use Rattle.lvm_volume.specs.Prelude.{[], IfOk, extents_of, is_record, is_store, name_at, recorded, role_at, roles_among, roles_of, segments_at, changed, record_list, with_origin, with_store};
ghost use Rattle.std.specs.Prelude.{◌≡◌};
ghost use Rattle.lvm_volume.specs.declared.group.roles.Role.TheVariants as roles;
ghost use Rattle.lvm_volume.specs.group.Roles as spec;

use crate::group::segment::{Segment, SegmentType};
use crate::group::volume::Volume;
use std::alloc::{AllocError, Global};

/// A snapshot as its record describes it: the chunk size in sectors, the positions of its origin and its store among
/// the volumes of the group, and the line of the record's segment.
#[derive(Clone, Copy, Debug, Drop)]
pub(crate) struct Record {
    pub chunk_size: u64,
    pub origin: usize,
    pub store: usize,
    pub line: u64,
}

/// The role that a volume has for the snapshots of its group.
#[derive(Clone, Copy, Debug, Drop)]
pub(crate) enum Role {
    /// Neither an origin, nor a store, nor a record.
    Plain,
    /// The origin of one or more snapshots.
    Origin,
    /// The exception store of this snapshot.
    Store(Record),
    /// The record of a snapshot, which names its origin and its store.
    Record,
    /// A store that is also an origin, or the store of several snapshots; the check of snapshots refuses such a group.
    Clashing,
}

impl Role {
    /// Whether the volume is the record of a snapshot.
    pub(crate) fn is_record(self) -> bool
        ensures { result ≡ is_record self }
    {
        matches!(self, Role::Record)
    }

    /// Whether the volume is the store of exactly one snapshot, and nothing else.
    pub(crate) fn is_store(self) -> bool
        ensures { result ≡ is_store self }
    {
        matches!(self, Role::Store(_))
    }

    /// The volume's new role once one more snapshot has the volume as its origin.
    fn with_origin(self) -> Role
        ensures { result ≡ with_origin self }
    {
        match self {
            Role::Plain => Role::Origin,
            Role::Store(_) => Role::Clashing,
            Role::Origin | Role::Record | Role::Clashing => self,
        }
    }

    /// The volume's new role once one more snapshot has the volume as its store.
    fn with_store(self, snapshot: Record) -> Role
        ensures { result ≡ with_store snapshot self }
    {
        match self {
            Role::Plain => Role::Store(snapshot),
            Role::Origin | Role::Store(_) => Role::Clashing,
            Role::Record | Role::Clashing => self,
        }
    }
}

/// The snapshot of which a volume with these segments is the record, or `None` if the volume isn't a record.
fn recorded(segments: &[Segment]) -> Option<Record>
    ensures { record_list result ≡ recorded segments.now }
{
    let [segment] = segments else {
        return None;
    };
    match &segment.target {
        SegmentType::Snapshot {
            chunk_size,
            origin,
            store,
        } => Some(Record {
            chunk_size: *chunk_size,
            origin: *origin,
            store: *store,
            line: segment.line,
        }),
        SegmentType::Striped { .. } | SegmentType::Zero | SegmentType::Error => None,
    }
}

/// The roles of all volumes of a group, in order.
///
/// Cost: linear in the volumes.
pub(crate) fn roles_of(alloc: Global, volumes: &[Volume]) -> Result<Vec<Role>, AllocError>
    ensures { IfOk result (λ roles. roles.items ≡ roles_of volumes.now) }
{
    let mut roles = first_roles(alloc, volumes)?;
    let mut at = volumes.len();
    while at > 0 {
        at -= 1;
        if let Some(snapshot) = recorded(volumes[at].segments.as_slice()) {
            add_origin(&mut roles, snapshot.origin);
            add_store(&mut roles, snapshot);
        }
    }
    Ok(roles)
}

/// The roles of all volumes before any snapshot is added: each volume is a record or plain.
fn first_roles(alloc: Global, volumes: &[Volume]) -> Result<Vec<Role>, AllocError>
    ensures { IfOk result (λ roles. roles.items ≡ roles_among [] volumes.now) }
{
    let mut roles = Vec::new(alloc);
    for volume in volumes {
        roles.push(first_role(volume))?;
    }
    Ok(roles)
}

/// The role of a volume before any snapshot is added: a record, or plain.
fn first_role(volume: &Volume) -> Role
    ensures { result ≡ spec.unless_recorded (recorded volume.now.segments) roles.Plain }
{
    match recorded(volume.segments.as_slice()) {
        Some(_) => Role::Record,
        None => Role::Plain,
    }
}

/// Updates the role of a snapshot's origin, the volume at `position`.
fn add_origin(roles: &mut Vec<Role>, position: usize)
    ensures { roles.new.items ≡ changed with_origin position 0 roles.old.items }
{
    if position < roles.len() {
        roles[position] = roles[position].with_origin();
    }
}

/// Updates the role of a snapshot's store.
fn add_store(roles: &mut Vec<Role>, snapshot: Record)
    ensures { roles.new.items ≡ changed (with_store snapshot) snapshot.store 0 roles.old.items }
{
    if snapshot.store < roles.len() {
        roles[snapshot.store] = roles[snapshot.store].with_store(snapshot);
    }
}

/// The role of the volume at a position; `Plain` if there is no such position.
pub(crate) fn role_at(roles: &[Role], position: usize) -> Role
    ensures { result ≡ role_at roles.now position }
{
    match roles.get(position) {
        Some(role) => *role,
        None => Role::Plain,
    }
}

/// The segments of the volume at a position; none if there is no such position.
pub(crate) fn segments_at(volumes: &[Volume], position: usize) -> &[Segment]
    ensures { result.now ≡ segments_at volumes.now position }
{
    match volumes.get(position) {
        Some(volume) => volume.segments.as_slice(),
        None => &[],
    }
}

/// The key of the volume at a position; empty if there is no such position.
pub(crate) fn name_at(volumes: &[Volume], position: usize) -> &str
    ensures { result.now ≡ name_at volumes.now position }
{
    match volumes.get(position) {
        Some(volume) => volume.name.as_str(),
        None => "",
    }
}

/// How many extents a volume with these segments has.
pub(crate) fn extents_of(segments: &[Segment]) -> u128
    ensures { result ≡ extents_of segments.now }
{
    match segments.last() {
        Some(last) => last.end(),
        None => 0,
    }
}
