//! An entry of the path list: where a disk's image is.

ghost use Rattle.dm_table.specs.Prelude.{IfNone, IfSome, whole_file};
ghost use Rattle.std.specs.Prelude.{◌≡◌, ◌+◌, ◌<◌, ◌≤◌, ◌^◌};

use crate::load::place::Place;
use crate::reserved::ReservedText;
use crate::words::disk_name::DiskName;
use std::marker::Model;

/// Where a disk's image is: a file and an extent of the file; `at` is the entry's place in the path list.
#[derive(Debug, Drop)]
pub struct DiskPath {
    pub disk: DiskName,
    pub file: ReservedText,
    pub extent: FileExtent,
    pub at: Place,
}

/// Consecutive sectors of a file: all of the file, or a part. A contract sees the first, below 2^51, and their number.
#[derive(Clone, Copy, Debug, Drop)]
pub struct FileExtent {
    start: u64,
    len: u64,
}

impl Model for FileExtent {
    ghost use Rattle.dm_table.specs.tables.Extent.{Extent};
    ghost use Rattle.std.specs.Prelude.{◌<◌, ◌^◌};

    ghost Value = { Extent };

    ghost view = { λ extent. record { start = extent.start; len = extent.len } };

    ghost invariant = { λ extent. extent.start < 2 ^ 51 };

    ghost inverse = { λ extent. record { start = extent.start; len = extent.len } };
}

impl FileExtent {
    /// The extent of `len` sectors from sector `start` of a file on.
    pub(crate) fn new(start: u64, len: u64) -> FileExtent
        requires { start < 2 ^ 51 }
        ensures { result ≡ record { start = start; len = len } }
    {
        FileExtent { start, len }
    }

    /// The extent that is all of a file.
    pub(crate) fn whole() -> FileExtent
        ensures { result ≡ whole_file }
    {
        FileExtent::new(0, 0x40_0000_0000_0000)
    }

    /// The sector of the file that is sector `sector` of the extent, if the extent has `count` sectors from there on.
    pub fn sector(self, sector: u64, count: u64) -> Option<u64>
        requires near { sector ≤ 2 ^ 50 }
        requires few { count ≤ 2 ^ 50 }
        ensures is { IfSome result (λ at. at ≡ self.start + sector) }
        ensures near { IfSome result (λ at. at < 2 ^ 52) }
        ensures inside { IfSome result (λ at. sector + count ≤ self.len) }
        ensures past { IfNone result (self.len < sector + count) }
    {
        if self.len < sector + count {
            return None;
        }
        Some(self.start + sector)
    }
}
