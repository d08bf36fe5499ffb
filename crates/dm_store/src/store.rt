//! An exception store that is to be read, and its layout.

use dm_stack::{ChunkSize, Lower};

/// The exception store of a snapshot. It is of a kind that keeps a list.
#[derive(Clone, Copy, Debug, Drop)]
pub struct Store {
    /// The device or disk on which the store is.
    pub lower: Lower,
    /// The chunk size, which the snapshot and its store share.
    pub chunk: ChunkSize,
    /// The length of the store in sectors.
    pub len: u64,
    /// How many chunks the snapshot can take before its store is full.
    pub places: u64,
    /// The number of the last chunk of the snapshot's device.
    pub last: u64,
}
