//! Why the head of a disk is refused.

ghost use Rattle.lvm_head.specs.Prelude.{Memory};
ghost use Rattle.std.specs.Prelude.{◌≡◌};

use std::alloc::{AllocError, AllocFailed};
use thiserror::Error;

/// Why the head of a disk is refused.
#[derive(Clone, Copy, Debug, PartialEq, Eq, Error)]
pub enum HeadFault {
    /// A sector of the head can't be read.
    #[error("a sector that can't be read")]
    Unread,
    /// The first sector contains a partition table, so that the physical volumes may be in the partitions.
    #[error("a partition table")]
    Partitions,
    /// The disk is a member of an md array. If only the metadata text says so, a crate above finds this fault.
    #[error("a member of an array")]
    Array,
    /// None of the first four sectors is a label, or the first sector that lvm2 regards as a label isn't valid.
    #[error("no label")]
    Label,
    /// The lists in the header don't end or name more than two metadata areas, or an area is misplaced or has an
    /// invalid header, or a text doesn't fit into its ring buffer.
    #[error("a header that isn't sound")]
    Header,
    /// The metadata text has more than 1,048,576 bytes.
    #[error("a text of more than 1,048,576 bytes")]
    Long,
    /// The metadata text has a wrong checksum, or ends with neither a newline nor a NUL.
    #[error("a text with another sum or end")]
    Text,
    /// The metadata text differs from the text of another area or of an earlier disk.
    #[error("another text than before")]
    Differ,
    /// An earlier disk has the same physical volume id.
    #[error("the id of an earlier disk")]
    Twice,
    /// The metadata text doesn't contain a physical volume with the disk's id. A crate above finds this fault.
    #[error("an id that its text doesn't have")]
    Foreign,
    /// The metadata text says that the physical volume was missing. A crate above finds this fault.
    #[error("a disk that was missing")]
    Missing,
    /// The disk is shorter than the metadata text says. A crate above finds this fault once the text has been loaded.
    #[error("a disk that ends before")]
    Ends,
    /// Memory ran out: an allocation was refused.
    #[error("out of memory")]
    Memory,
}

impl From<AllocError> for HeadFault {
    ghost from_gives = { λ _ e. e ≡ Memory };

    fn from(_: AllocError) -> HeadFault {
        HeadFault::Memory
    }
}

impl<T: Drop> From<AllocFailed<T>> for HeadFault {
    ghost from_gives = { λ _ e. e ≡ Memory };

    fn from(_failed: AllocFailed<T>) -> HeadFault {
        HeadFault::Memory
    }
}

/// The number of the first disk whose head is refused, counted from 0, and why the head is refused.
#[derive(Clone, Copy, Debug, PartialEq, Eq, Drop)]
pub struct HeadRefusal {
    pub disk: usize,
    pub fault: HeadFault,
}
