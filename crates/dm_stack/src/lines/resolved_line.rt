//! Lines of a table as a look-up returns them, with ids in place of names.
//!
//! A load looks up all names, so mapping never compares names. To add a target, add a variant to
//! `ResolvedTarget`, arms in `specs/lines/Below.antt`, and an arm in `resolve`, which makes these lines.

use crate::id::{DeviceId, Lower};
use crate::lines::chunk_size::ChunkSize;
use crate::lines::divisor::Divisor;
use crate::lines::resolved_columns::ResolvedColumns;
use dm_table::{Listed, StoreKind};

/// The line that holds a sector, as a look-up returns it.
pub type Found<'s> = &'s ResolvedLine;

/// A line of a table, which covers `len` sectors from `start` on.
#[derive(Debug, Drop)]
pub struct ResolvedLine {
    pub start: u64,
    pub len: u64,
    pub target: ResolvedTarget,
}

// A line fits into one cache line, because a larger one would make every look-up slower.
const _: () = prove!(std::mem::size_of::<ResolvedLine>() == 64);

/// What a line does with its sectors. Offsets and chunks are in sectors of 512 bytes.
#[derive(Debug, Drop)]
pub enum ResolvedTarget {
    /// The line's sectors are those of a lower device or disk, from an offset on.
    Linear {
        to: Lower,
        offset: u64,
    },
    /// The line's sectors are spread over the columns in turn, chunk by chunk.
    Striped {
        chunk: Divisor,
        columns: ResolvedColumns,
    },
    /// Reads return zeros, writes are discarded.
    Zero,
    /// Every request fails.
    Error,
    /// A snapshot, the only line of its table.
    Snapshot(ResolvedSnapshot),
    /// An origin, the only line of its table.
    Origin(ResolvedOrigin),
}

/// A snapshot: its origin, the exception store for its chunks, the store's kind, and the chunk size.
#[derive(Clone, Copy, Debug, Drop)]
pub struct ResolvedSnapshot {
    pub origin: Lower,
    pub store: Lower,
    pub kind: StoreKind,
    pub chunk: ChunkSize,
}

const _: () = prove!(std::mem::size_of::<ResolvedSnapshot>() == 40);

/// An origin: the device or disk that it covers, and all snapshots of the latter, in the order of their devices,
/// so that a write finds the snapshots without a search.
#[derive(Debug, Drop)]
pub struct ResolvedOrigin {
    pub to: Lower,
    pub over: Listed<ResolvedOver>,
}

/// A snapshot of an origin, and the id of the snapshot's device.
#[derive(Clone, Copy, Debug, Drop)]
pub struct ResolvedOver {
    pub device: DeviceId,
    pub snapshot: ResolvedSnapshot,
}
