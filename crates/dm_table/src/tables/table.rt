//! Devices and their tables as a text describes them, before any check of the tables as a whole.
//!
//! The terms are those of dmsetup(8): a table is a list of lines, and a line maps a range of sectors to
//! a target. A new target needs a variant of `Target`, an arm in `line_body` and one in `line_head`,
//! and definitions of its text, its arguments and its meaning.

use crate::load::place::Place;
use crate::tables::listed::Listed;
use crate::words::device_name::Name;
use crate::words::disk_name::DiskName;

/// The device or disk that a target names: a device that has its own table, or a disk from the disk list.
#[derive(Debug, Drop)]
pub enum DevRef {
    Device(Name),
    Disk(DiskName),
}

/// A column of a striped line: a lower device, and the sector of that device at which the column begins.
#[derive(Debug, Drop)]
pub struct Column {
    pub to: DevRef,
    pub offset: u64,
}

/// The columns of a striped line, in the order of the text.
pub type Columns = Listed<Column>;

/// The target of a line: what the line's sectors map to. Offsets and chunk sizes are in sectors.
#[derive(Debug, Drop)]
pub enum Target {
    /// Maps to a lower device, from sector `offset` on.
    Linear {
        to: DevRef,
        offset: u64,
    },
    /// Maps to the columns in turn, `chunk` sectors at a time, starting with the first column. A text may
    /// have a chunk size of 0 or no columns, which a later check of the load refuses.
    Striped {
        chunk: u64,
        columns: Columns,
    },
    /// Reads return zeros, and writes are dropped.
    Zero,
    /// Every request fails.
    Error,
    /// A snapshot of the origin: a chunk of `chunk` sectors is copied to the store before it is first
    /// written. A text may have any chunk size; a later check of the load refuses bad sizes.
    Snapshot {
        origin: DevRef,
        store: DevRef,
        kind: StoreKind,
        chunk: u64,
    },
    /// Maps to the origin. Before a chunk is written, it is copied to the store of each snapshot of the
    /// origin that doesn't have a copy yet.
    Origin {
        origin: DevRef,
    },
}

/// A kind of exception store: what the store keeps, and what happens to the snapshot when the store is full.
#[derive(Clone, Copy, Debug, PartialEq, Eq, Drop)]
pub enum StoreKind {
    /// The flag `P`: the store keeps the exceptions' chunk numbers too, so that the snapshot survives
    /// a restart.
    Persistent,
    /// The flag `N`: the store keeps only the copied chunks, so that the snapshot doesn't survive a restart.
    Transient,
    /// The flag `K`, which no kernel knows: like `P`, but when the store is full, the write fails and the
    /// snapshot stays valid.
    Keeping,
}

/// How a line uses a device or disk that it names.
#[derive(Clone, Copy, Debug, PartialEq, Eq, Drop)]
pub enum Use {
    /// Exclusively: no other line may use the device or disk.
    Own,
    /// Only for reading, which other lines may do too.
    Reading,
    /// For reading and writing, while other lines may read: a snapshot-origin line, beside the origin's snapshots.
    Serving,
}

/// A line of a table: the target that `len` sectors from `start` on map to, and the line's place in the text.
#[derive(Debug, Drop)]
pub struct Line {
    pub start: u64,
    pub len: u64,
    pub target: Target,
    pub at: Place,
}

/// The lines of a device, in the order of the text.
pub type Table = Listed<Line>;

/// A device: its name, its table, whether it is read-only, and its place in the text.
#[derive(Debug, Drop)]
pub struct DeviceSpec {
    pub name: Name,
    pub ro: bool,
    pub lines: Table,
    pub at: Place,
}
