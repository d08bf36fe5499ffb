//! Makes the lines of a volume's table: one for each segment, in sectors.
//!
//! The checks of the group have passed, so each product fits 64 bits, and each stripe is on a physical volume of the
//! group. A new type of segment needs an arm in `line_target`, here and in `specs/tables/Tables.antt`.

ghost use Rattle.lvm_volume.specs.Prelude.{IfOk, map, AllByRecursion, stripes_of, IsSegmentIn, IsStripeIn, column_of, columns_target, line_of, line_target};
ghost use Rattle.std.specs.Prelude.{◌≡◌};

use crate::fields::source_line::source_line;
use crate::group::physical::Physical;
use crate::group::segment::{Segment, SegmentType, Stripe};
use dm_table::{Column, Columns, DevRef, Line, Table, Target};
use std::alloc::{AllocError, Global};

/// The lines for the segments of a volume.
pub(crate) fn lines_of(
    alloc: Global,
    extent_size: u64,
    physicals: &[Physical],
    segments: &[Segment],
) -> Result<Table, AllocError>
    requires { AllByRecursion (IsSegmentIn extent_size physicals.now) segments.now }
    ensures { IfOk result (λ table. table ≡ map (line_of extent_size physicals.now) segments.now) }
{
    let mut lines = Vec::new(alloc);
    for segment in segments {
        lines.push(line_of(alloc, extent_size, physicals, segment)?)?;
    }
    Ok(Table::from_vec(lines))
}

/// The line for one segment.
#[tactic(auto, unfolding(crate::specs::tables::Tables::line_of))]
fn line_of(
    alloc: Global,
    extent_size: u64,
    physicals: &[Physical],
    segment: &Segment,
) -> Result<Line, AllocError>
    requires { IsSegmentIn extent_size physicals.now segment.now }
    ensures { IfOk result (λ line. line ≡ line_of extent_size physicals.now segment.now) }
{
    Ok(Line {
        start: segment.start * extent_size,
        len: segment.count * extent_size,
        target: line_target(alloc, extent_size, physicals, &segment.target)?,
        at: source_line(segment.line),
    })
}

/// The target for a segment.
fn line_target(
    alloc: Global,
    extent_size: u64,
    physicals: &[Physical],
    target: &SegmentType,
) -> Result<Target, AllocError>
    requires { AllByRecursion (IsStripeIn extent_size physicals.now) (stripes_of target.now) }
    ensures { IfOk result (λ made. made ≡ line_target extent_size physicals.now target.now) }
{
    match target {
        SegmentType::Striped {
            stripe_size,
            stripes,
        } => {
            let columns = columns_of(alloc, extent_size, physicals, stripes.as_slice())?;
            Ok(columns_target(*stripe_size, columns))
        }
        SegmentType::Zero => Ok(Target::Zero),
        SegmentType::Error | SegmentType::Snapshot { .. } => Ok(Target::Error),
    }
}

/// A linear target for a single column, or else a striped target.
fn columns_target(stripe_size: u64, mut columns: Vec<Column>) -> Target
    ensures { result ≡ columns_target stripe_size columns.items }
{
    if columns.len() == 1 {
        if let Some(column) = columns.pop() {
            return Target::Linear {
                to: column.to,
                offset: column.offset,
            };
        }
    }
    Target::Striped {
        chunk: stripe_size,
        columns: Columns::from_vec(columns),
    }
}

/// The columns for the stripes of a segment.
fn columns_of(
    alloc: Global,
    extent_size: u64,
    physicals: &[Physical],
    stripes: &[Stripe],
) -> Result<Vec<Column>, AllocError>
    requires { AllByRecursion (IsStripeIn extent_size physicals.now) stripes.now }
    ensures { IfOk result (λ v. v.items ≡ map (column_of extent_size physicals.now) stripes.now) }
{
    let mut columns = Vec::new(alloc);
    for stripe in stripes {
        columns.push(column_of(alloc, extent_size, physicals, *stripe)?)?;
    }
    Ok(columns)
}

/// The column for a stripe: its disk, and the sector of that disk at which the stripe begins.
fn column_of(
    alloc: Global,
    extent_size: u64,
    physicals: &[Physical],
    stripe: Stripe,
) -> Result<Column, AllocError>
    requires { IsStripeIn extent_size physicals.now stripe }
    ensures { IfOk result (λ column. column ≡ column_of extent_size physicals.now stripe) }
{
    let physical = &physicals[stripe.physical];
    Ok(Column {
        to: DevRef::Disk(physical.disk.copy(alloc)?),
        offset: physical.start + stripe.extent * extent_size,
    })
}
