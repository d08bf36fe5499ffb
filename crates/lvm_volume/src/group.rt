//! What the sections of a volume group describe: its physical volumes, its logical volumes with their segments, and the
//! roles that logical volumes have for snapshots.

pub(crate) mod group_fields;
pub(crate) mod key;
pub(crate) mod owners;
pub(crate) mod physical;
pub(crate) mod positions;
pub(crate) mod roles;
pub(crate) mod segment;
pub(crate) mod volume;
