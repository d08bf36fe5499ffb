//! Reasons why a sector of a device has no bytes.

use dm_store::SectorFault;

/// Why a sector of a device has no bytes.
#[derive(Clone, Copy, Debug, PartialEq, Eq, Drop)]
pub enum ByteFault {
    /// The sector maps to an error, or to a snapshot that is lost.
    Error,
    /// The sector maps to a sector of a disk that can't be read.
    Unread(SectorFault),
}

/// A sector of a device that has no bytes, and the reason.
#[derive(Clone, Copy, Debug, PartialEq, Eq, Drop)]
pub struct Stop {
    pub sector: u64,
    pub fault: ByteFault,
}
