//! The checks of a group after those of its fields: what segments refer to, how extents are used, and snapshots.

pub(crate) mod extents;
pub(crate) mod segment_check;
pub(crate) mod used;
