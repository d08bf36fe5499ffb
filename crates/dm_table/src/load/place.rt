//! A place in the texts of a load: a part, and a number of a line or device in it.
//!
//! Devices, lines and disks keep their place, so that a fault that is found later can name it.
//! If a load is to read one more text, `Part` needs one more variant.

ghost use Rattle.dm_table.specs.Prelude.{Some, part_word};
ghost use Rattle.std.specs.Prelude.{◌≡◌};

use std::fmt;

/// A part of a load: one of the texts that it reads.
#[derive(Clone, Copy, Debug, PartialEq, Eq)]
pub enum Part {
    /// The tables, as table text or in the concise form, or the metadata of a volume group.
    Source,
    /// The disk list.
    Disks,
    /// The path list, which says where the disks' images are.
    Paths,
}

impl Part {
    /// The word for the part in a message.
    pub(crate) fn word(self) -> &'static str
        ensures { result.now ≡ part_word self }
    {
        match self {
            Part::Source => "source",
            Part::Disks => "disks",
            Part::Paths => "paths",
        }
    }
}

impl fmt::Display for Part {
    ghost output = { λ part. Some (part_word part) };

    fn fmt<W: fmt::Write>(&self, f: &mut fmt::Formatter<W>) -> fmt::Result {
        f.write_str(self.word())
    }
}

/// A place in a part: the number of a line, counted from 1; in the concise form the number of a device; or
/// 0 for the part as a whole.
#[derive(Clone, Copy, Debug, PartialEq, Eq)]
pub struct Place {
    pub part: Part,
    pub number: u64,
}
