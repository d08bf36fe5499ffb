//! Places and faults on a line of the metadata text.
//!
//! The places of all faults, devices, lines and disks of a metadata text are made here. Lines count from 1; the fault
//! of running out of memory has no line.

ghost use Rattle.lvm_volume.specs.Prelude.{Source, IsMemoryFault, fault_at, source_line};
ghost use Rattle.std.specs.Prelude.{◌≡◌};

use dm_table::{LoadFault, LoadKind, Part, Place};

/// The place of a line in the metadata text.
pub(crate) fn source_line(line: u64) -> Place
    ensures { result ≡ source_line line }
{
    Place {
        part: Part::Source,
        number: line,
    }
}

/// The fault for running out of memory while reading the metadata text.
pub(crate) fn memory_fault() -> LoadFault
    ensures { IsMemoryFault Source result }
{
    LoadFault::memory(Part::Source)
}

/// A fault on a line of the metadata text.
pub(crate) fn source_fault(kind: LoadKind, line: u64) -> LoadFault
    ensures { result ≡ fault_at Source kind line }
{
    LoadFault {
        kind,
        at: source_line(line),
    }
}
