//! Turns the faults of a metadata text into faults of a load.

ghost use Rattle.lvm_volume.specs.Prelude.{text_fault};
ghost use Rattle.std.specs.Prelude.{◌≡◌};

use crate::fields::source_line::{memory_fault, source_fault};
use dm_table::{LoadFault, LoadKind};
use lvm_text::TextFault;

/// The fault of a load for a fault of the metadata text, on the same line.
pub fn text_fault(fault: TextFault) -> LoadFault
    ensures { result ≡ text_fault fault }
{
    match fault {
        TextFault::Token(line) => source_fault(LoadKind::Syntax, line),
        TextFault::Syntax(line) => source_fault(LoadKind::Syntax, line),
        TextFault::KeyTwice(line) => source_fault(LoadKind::Twice, line),
        TextFault::Deep(line) => source_fault(LoadKind::Deep, line),
        TextFault::Number(line) => source_fault(LoadKind::Field, line),
        TextFault::Memory => memory_fault(),
    }
}
