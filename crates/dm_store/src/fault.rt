//! Why an exception store is refused.

use dm_stack::DeviceId;

/// Why a sector of a disk can't be read.
#[derive(Clone, Copy, Debug, PartialEq, Eq, Drop)]
pub enum SectorFault {
    /// No image is given for the disk that the sector is on.
    Missing,
    /// The image can't be opened or read, or ends before the end of the sector.
    Read,
}

/// Why the list of a store is refused. The pairs in a list are numbered from 0.
#[derive(Clone, Copy, Debug, PartialEq, Eq, Drop)]
pub enum ListFault {
    /// A pair's store chunk isn't the one for the pair's number, or the store has no such chunk.
    Order,
    /// A pair's snapshot chunk is past the end of the snapshot's device.
    Range,
    /// A pair's snapshot chunk is also that of an earlier pair.
    Again,
}

/// Why a store is refused.
#[derive(Clone, Copy, Debug, PartialEq, Eq, Drop)]
pub enum StoreFault {
    /// The header, or a sector of a metadata area that the list fills or ends in, can't be read.
    Unread(SectorFault),
    /// The header isn't that of a store: its first number is neither the magic number nor 0.
    Magic,
    /// The version in the header isn't 1.
    Version,
    /// The chunk size in the header isn't the one in the table.
    Chunk,
    /// The list has a gap: the pairs between its end and the end of the metadata area aren't all zero.
    Gap,
    /// A pair of the list is wrong.
    Listed(ListFault),
}

/// The snapshot whose store is refused, and why the store is refused.
#[derive(Clone, Copy, Debug, PartialEq, Eq, Drop)]
pub struct StoreRefusal {
    pub snapshot: DeviceId,
    pub fault: StoreFault,
}
