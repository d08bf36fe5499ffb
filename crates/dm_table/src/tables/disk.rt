//! A disk from the disk list. Disks are the lowest devices of every stack.

use crate::load::place::Place;
use crate::words::disk_name::DiskName;

/// A disk of `len` sectors of 512 bytes, and the place of its line in the disk list.
#[derive(Debug, Drop)]
pub struct Disk {
    pub name: DiskName,
    pub len: u64,
    pub at: Place,
}
