//! Why a load was refused: the kind of fault, and the place where it was found.
//!
//! All readers and checks return the same type of fault, so that a caller can report any fault in the same way.
//! A new kind needs a word in `LoadKind::word`, and in `kind_word` of `specs/load/LoadMessage.antt`.

ghost use Rattle.dm_table.specs.Prelude.{Some, length, IsMemoryFault, fault_at, kind_word};
ghost use Rattle.std.specs.Prelude.{◌≡◌, ◌+◌, ◌^◌, ◌<◌, ◌≤◌};

use crate::load::place::{Part, Place};
use std::fmt;
use thiserror::Error;

/// A kind of fault that a check of a load finds.
#[derive(Clone, Copy, Debug, PartialEq, Eq, Error)]
pub enum LoadKind {
    /// The part could not be read to its end.
    Read,
    /// The part has more than 1,048,576 bytes.
    Long,
    /// The text contains a byte that may not occur in it.
    NotText,
    /// A line or a device in the text doesn't have the structure that the text's form requires.
    Syntax,
    /// A field is missing or isn't a valid number, a target is unknown, or its arguments are wrong.
    Field,
    /// The name of a device, a disk or a volume isn't valid.
    Name,
    /// A name of a device or disk, or a key of metadata, occurs twice.
    Twice,
    /// A device has no lines, or a length is 0.
    Empty,
    /// A line starts after the end of the line before.
    Gap,
    /// A line starts before the end of the line before.
    Overlap,
    /// A line names an unknown device or disk, or metadata names an unknown volume.
    Unknown,
    /// A device is below itself, directly or through other devices.
    Cycle,
    /// A device has too many levels of devices below it, or sections of metadata are nested too deep.
    Deep,
    /// A line maps to sectors past the end of the lower device or disk.
    Range,
    /// A striped line has a bad number of columns or a bad chunk size, or a length that doesn't fit them.
    Stripe,
    /// A snapshot or snapshot-origin line doesn't fit its table, or the devices or volumes that it names.
    Snapshot,
    /// An exception store can't hold the exceptions of its snapshot.
    Store,
    /// Extents of an LVM2 volume are misplaced, used twice, or past the end of their device.
    Extents,
    /// A number or a count is above its limit.
    Limit,
    /// Memory ran out: an allocation was refused.
    Memory,
}

impl LoadKind {
    /// The word for this kind of fault in a message.
    pub(crate) fn word(self) -> &'static str
        ensures word { result.now ≡ kind_word self }
        ensures short { length result.now ≤ 8 }
    {
        match self {
            LoadKind::Read => "read",
            LoadKind::Long => "long",
            LoadKind::NotText => "text",
            LoadKind::Syntax => "syntax",
            LoadKind::Field => "field",
            LoadKind::Name => "name",
            LoadKind::Twice => "twice",
            LoadKind::Empty => "empty",
            LoadKind::Gap => "gap",
            LoadKind::Overlap => "overlap",
            LoadKind::Unknown => "unknown",
            LoadKind::Cycle => "cycle",
            LoadKind::Deep => "deep",
            LoadKind::Range => "range",
            LoadKind::Stripe => "stripe",
            LoadKind::Snapshot => "snapshot",
            LoadKind::Store => "store",
            LoadKind::Extents => "extents",
            LoadKind::Limit => "limit",
            LoadKind::Memory => "memory",
        }
    }
}

impl fmt::Display for LoadKind {
    ghost output = { λ kind. Some (kind_word kind) };

    fn fmt<W: fmt::Write>(&self, f: &mut fmt::Formatter<W>) -> fmt::Result {
        f.write_str(self.word())
    }
}

/// Why a load was refused: the kind of fault, and its place. The place's number is 0 for `Read`, `Long` and `Memory`.
#[derive(Clone, Copy, Debug, PartialEq, Eq, Error)]
#[error("{}: {kind} at {}", .at.part, .at.number)]
pub struct LoadFault {
    pub kind: LoadKind,
    pub at: Place,
}

impl LoadFault {
    /// A fault at line or device `number` of a part, counted from 1, or at number 0 for the part as a whole.
    pub(crate) fn at(part: Part, kind: LoadKind, number: u64) -> LoadFault
        ensures { result ≡ fault_at part kind number }
    {
        LoadFault {
            kind,
            at: Place { part, number },
        }
    }

    /// The fault for running out of memory while reading a part.
    pub fn memory(part: Part) -> LoadFault
        ensures { IsMemoryFault part result }
    {
        LoadFault::at(part, LoadKind::Memory, 0)
    }

    /// A fault at the line or device with this index, which is counted from 0, while places are counted from
    /// 1. An index into a slice of slices or vectors is always below 2^63.
    pub(crate) fn at_index(part: Part, kind: LoadKind, index: usize) -> LoadFault
        requires { index < 2 ^ 63 }
        ensures { result ≡ fault_at part kind (index + 1) }
    {
        LoadFault::at(part, kind, index as u64 + 1)
    }
}
