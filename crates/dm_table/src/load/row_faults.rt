//! The fault of a row of fields, and the first fault of each kind in a text.
//!
//! The checks of a text are defined as running one after another, each over all rows. Still, each row is
//! read only once: the first fault of each kind is kept, and at the end the one whose check comes first is
//! returned. To add a kind of fault, change `specs/load/RowFaults.antt` first.

ghost use Rattle.dm_table.specs.Prelude.{Some, OnOk, fault_at, no_faults, either, fault_in, noted_at, noted_rest, first_noted};
ghost use Rattle.dm_table.specs.declared.load.row_faults.RowFault.TheVariants.{Memory};
ghost use Rattle.std.specs.Prelude.{◌≡◌, ◌≢◌};

use crate::load::load_fault::{LoadFault, LoadKind};
use crate::load::place::Part;
use std::alloc::{AllocError, AllocFailed};

/// Why a row of fields, or a part of one, could not be read.
#[derive(Clone, Copy)]
pub(crate) enum RowFault {
    /// The fields don't have the form of a row.
    Syntax,
    /// A field should be a number and isn't, a target is unknown, or its arguments are wrong.
    Field,
    /// A name in the fields isn't valid.
    Name,
    /// Memory ran out: an allocation was refused.
    Memory,
}

impl From<AllocError> for RowFault {
    ghost from_gives = { λ _ fault. fault ≡ Memory };

    fn from(_error: AllocError) -> RowFault {
        RowFault::Memory
    }
}

impl<T: Drop> From<AllocFailed<T>> for RowFault {
    ghost from_gives = { λ _ fault. fault ≡ Memory };

    fn from(_failed: AllocFailed<T>) -> RowFault {
        RowFault::Memory
    }
}

/// The first fault of each kind among the rows read so far.
#[derive(Clone, Copy)]
pub(crate) struct FirstFaults {
    pub syntax: Option<LoadFault>,
    pub field: Option<LoadFault>,
    pub name: Option<LoadFault>,
}

impl FirstFaults {
    /// No fault of any kind.
    pub(crate) fn new() -> FirstFaults
        ensures { result ≡ no_faults }
    {
        FirstFaults {
            syntax: None,
            field: None,
            name: None,
        }
    }

    /// Keeps the fault of row `number`, if the row has one and no earlier row has a fault of the same kind.
    /// Returns an error if memory ran out, so that the caller stops reading.
    pub(crate) fn note(
        &mut self,
        part: Part,
        number: u64,
        read: Result<(), RowFault>,
    ) -> Result<(), AllocError>
        ensures noted { OnOk result (self.new ≡ noted_at part self.old number (fault_in read)) }
        ensures text { OnOk result (fault_in read ≢ Some Memory) }
    {
        match read {
            Ok(()) => {}
            Err(RowFault::Syntax) => keep(&mut self.syntax, part, LoadKind::Syntax, number),
            Err(RowFault::Field) => keep(&mut self.field, part, LoadKind::Field, number),
            Err(RowFault::Name) => keep(&mut self.name, part, LoadKind::Name, number),
            Err(RowFault::Memory) => return Err(AllocError),
        }
        Ok(())
    }

    /// Keeps a `Syntax` fault at line `number` if `rest`, the bytes after the text's last newline, isn't empty.
    pub(crate) fn note_rest(&mut self, part: Part, number: u64, rest: &[u8])
        ensures { self.new ≡ noted_rest part self.old number rest.now }
    {
        if !rest.is_empty() {
            keep(&mut self.syntax, part, LoadKind::Syntax, number);
        }
    }

    /// The fault to return: the first `Syntax` fault, else the first `Field` fault, else the first `Name` fault.
    pub(crate) fn first(&self) -> Option<LoadFault>
        ensures { result ≡ first_noted self.now }
    {
        if self.syntax.is_some() {
            self.syntax
        } else if self.field.is_some() {
            self.field
        } else {
            self.name
        }
    }
}

/// Stores a fault of this kind, unless an earlier fault is stored already.
fn keep(first: &mut Option<LoadFault>, part: Part, kind: LoadKind, number: u64)
    ensures { first.new ≡ either first.old (Some (fault_at part kind number)) }
{
    if first.is_none() {
        *first = Some(LoadFault::at(part, kind, number));
    }
}
