//! Sectors of 512 bytes, the unit in which images and disks are read.

/// The size of a sector in bytes.
pub const SECTOR: usize = 512;

/// The most bytes that one read may request.
pub const MOST_BYTES: usize = 65_536;

/// The fault of an image or a disk that can't be opened or read, or that ends before the sectors to be read.
#[derive(Clone, Copy, Debug, PartialEq, Eq, Drop)]
pub struct ReadFault;
