//! The place of a disk in an image file.

ghost use Rattle.dm_store.specs.Prelude.{string_bytes};
ghost use Rattle.std.specs.Prelude.{◌≡◌};

use dm_table::FileExtent;
use std::marker::Model;

/// The image in which a disk is, the sectors of the image that belong to the disk, and the line of the list with the
/// image's path. In contracts, the value is the line, the bytes of the path, and the extent.
#[derive(Debug, Drop)]
pub struct ImagePlace {
    path: String,
    extent: FileExtent,
    line: u64,
}

impl Model for ImagePlace {
    ghost use Rattle.dm_store.specs.Base.{string_bytes};
    ghost use Rattle.dm_store.specs.Places.{Place};

    ghost Value = { Place };

    ghost view = { λ place. record { line = place.line; path = string_bytes place.path; extent = place.extent } };
}

impl ImagePlace {
    /// An extent of the image with this path, which is in this line of the list. Allocates nothing.
    pub(crate) fn new(path: String, extent: FileExtent, line: u64) -> ImagePlace
        ensures { result ≡ record { line = line; path = string_bytes path; extent = extent } }
    {
        ImagePlace { path, extent, line }
    }

    /// The number of the line in the list of paths that gives the image.
    pub(crate) fn line(&self) -> u64
        ensures { result ≡ self.now.line }
    {
        self.line
    }

    /// The path of the image.
    pub(crate) fn path(&self) -> &str
        ensures { result.now ≡ self.now.path }
    {
        self.path.as_str()
    }

    /// The sectors of the image that belong to the disk.
    pub(crate) fn extent(&self) -> FileExtent
        ensures { result ≡ self.now.extent }
    {
        self.extent
    }
}
