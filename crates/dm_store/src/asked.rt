//! A read of an image, as an entry in a log of reads.

use crate::images::ReadFault;

/// A read of sectors from `sector` on: the number of the image's line in the list, the length of its path in bytes, how
/// many bytes were asked for, and whether the read succeeded.
#[derive(Clone, Copy, Debug, Drop)]
pub struct Asked {
    pub line: u64,
    pub path_len: usize,
    pub sector: u64,
    pub len: usize,
    pub answer: Result<(), ReadFault>,
}
