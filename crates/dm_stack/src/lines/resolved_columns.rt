//! The columns of a striped line, their number as a divisor, and whether they are all on disks.
//!
//! The columns are boxed, to keep lines without columns small.

ghost use Rattle.dm_stack.specs.Prelude.{IfOk, length, are_on_disks};
ghost use Rattle.std.specs.Prelude.{◌≡◌};

use crate::id::Lower;
use crate::lines::divisor::Divisor;
use dm_table::{Listed, ReservedBox};
use std::alloc::{AllocError, Global};
use std::marker::Model;

/// A column of a striped line: its device or disk, and the sector at which the column starts on it.
#[derive(Clone, Copy, Debug, Drop)]
pub struct ResolvedColumn {
    pub to: Lower,
    pub offset: u64,
}

/// The columns of a striped line, in order. Contracts see them as a list.
#[derive(Debug, Drop)]
pub struct ResolvedColumns {
    counted: ReservedBox<CountedColumns>,
}

/// The columns, their number, and whether all of them are on disks.
#[derive(Debug, Drop)]
struct CountedColumns {
    columns: Listed<ResolvedColumn>,
    count: Divisor,
    on_disks: bool,
}

impl Model for ResolvedColumns {
    ghost use Rattle.dm_stack.specs.Base.{List, length};
    ghost use Rattle.dm_stack.specs.declared.lines.resolved_columns.ResolvedColumn.{ResolvedColumn};
    ghost use Rattle.dm_stack.specs.lines.ResolvedColumns.{are_on_disks};
    ghost use Rattle.std.specs.Prelude.{◌≡◌};

    ghost Value = { List ResolvedColumn };

    ghost view = { λ found. found.counted.columns };

    ghost invariant = { λ found. (found.counted.count ≡ length found.counted.columns)
        × (found.counted.on_disks ≡ are_on_disks found.counted.columns) };
}

impl ResolvedColumns {
    /// Boxes the columns with their number. Fails only when out of memory.
    pub(crate) fn from_vec(
        alloc: Global,
        columns: Vec<ResolvedColumn>,
    ) -> Result<ResolvedColumns, AllocError>
        ensures { IfOk result (λ found. found ≡ columns.items) }
    {
        let count = Divisor::new(columns.len() as u64);
        let on_disks = are_on_disks(columns.as_slice());
        let columns = Listed::from_vec(columns);
        let counted = ReservedBox::new(
            alloc,
            CountedColumns {
                columns,
                count,
                on_disks,
            },
        )?;
        Ok(ResolvedColumns { counted })
    }

    /// The columns, in order.
    #[inline(always)]
    pub(crate) fn as_slice(&self) -> &[ResolvedColumn]
        ensures { result.now ≡ self.now }
    {
        self.counted.as_ref().columns.as_slice()
    }

    /// The number of columns, as a divisor.
    #[inline(always)]
    pub(crate) fn count(&self) -> &Divisor
        ensures { result.now ≡ length self.now }
    {
        &self.counted.as_ref().count
    }

    /// Whether all columns are on disks.
    #[inline(always)]
    pub(crate) fn are_on_disks(&self) -> bool
        ensures { result ≡ are_on_disks self.now }
    {
        self.counted.as_ref().on_disks
    }
}

/// Whether all of these columns are on disks.
fn are_on_disks(columns: &[ResolvedColumn]) -> bool
    ensures { result ≡ are_on_disks columns.now }
{
    columns
        .iter()
        .all(|column| matches!(column.to, Lower::Disk(_)))
}
