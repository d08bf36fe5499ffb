//! The checks for counts and numbers above their limits.
//!
//! Two numbers within the limits add up without overflow in 64 bits, and later checks rely on this. The
//! definitions of the specs use the same constants.

ghost use Rattle.dm_stack.specs.Prelude.{[], None, nat_lt, option_copied, slice_get, list_any, result_err, Limit, first_or, all_lines, is_far, is_large, line_faults, past, too_large, too_many, described};
ghost use Rattle.dm_table.specs.Prelude.{spans};
ghost use Rattle.dm_stack.specs.declared.checks.limits.TheConstants.{MOST_LENGTH};
ghost use Rattle.std.specs.Prelude.{◌≡◌};

use crate::checks::faults::{Placed, check_each};
use dm_table::{Column, DeviceSpec, Disk, Line, LoadFault, LoadKind, Target};

/// The most devices in a stack.
pub const MOST_DEVICES: usize = 1024;

/// The most disks in a stack.
pub const MOST_DISKS: usize = 1024;

/// The most lines in all tables of a stack together.
pub const MOST_LINES: usize = 65536;

/// The most sectors of a device or a disk, and the greatest offset: 2^50.
pub const MOST_LENGTH: u64 = 1 << 50;

/// The most columns of a striped line.
pub const MOST_STRIPES: usize = 128;

/// The largest chunk of a striped line, in sectors: 2^32 - 1.
pub const MOST_CHUNK: u64 = (1 << 32) - 1;

/// The largest chunk of a snapshot, in sectors.
pub const MOST_SNAPSHOT_CHUNK: u64 = 1024;

/// The most chunks that all stores of a stack together may have room for.
pub const MOST_PLACES: u64 = 4_194_304;

/// Fails at the first device past the limit, or else at the first disk or line past the limit of its kind.
///
/// Cost: a walk over the devices.
pub(crate) fn check_counts(devices: &[DeviceSpec], disks: &[Disk]) -> Result<(), LoadFault>
    ensures { result_err result ≡ first_or (too_many (described devices.now disks.now)) None }
{
    check_count(MOST_DEVICES, devices)?;
    check_count(MOST_DISKS, disks)?;
    match line_at(devices, MOST_LINES) {
        Some(line) => Err(LoadFault {
            kind: LoadKind::Limit,
            at: line.at,
        }),
        None => Ok(()),
    }
}

/// Fails if the list has more than `most` elements, at the first one too many.
fn check_count<T: Placed>(most: usize, list: &[T]) -> Result<(), LoadFault>
    ensures { result_err result ≡ first_or (past most T.place_of list.now) None }
{
    match list.get(most) {
        Some(item) => Err(LoadFault {
            kind: LoadKind::Limit,
            at: item.place(),
        }),
        None => Ok(()),
    }
}

/// The line with this index, counted over the lines of all devices.
fn line_at(devices: &[DeviceSpec], index: usize) -> Option<&Line>
    ensures { option_copied result ≡ slice_get (all_lines devices.now) index }
{
    let mut left = index;
    for device in devices {
        let lines = device.lines.as_slice();
        if left < lines.len() {
            return Some(&lines[left]);
        }
        left -= lines.len();
    }
    None
}

/// Fails at the first line with a number above the limit, or else at the first disk longer than the limit.
///
/// Cost: a walk over the lines and their columns, and over the disks.
pub(crate) fn check_numbers(devices: &[DeviceSpec], disks: &[Disk]) -> Result<(), LoadFault>
    ensures { result_err result ≡ first_or (too_large (described devices.now disks.now)) None }
{
    check_line_numbers(devices)?;
    check_each(LoadKind::Limit, disks, |disk| MOST_LENGTH < disk.len)
}

/// Fails at the first line with a start, length, end or offset above the limit.
fn check_line_numbers(devices: &[DeviceSpec]) -> Result<(), LoadFault>
    ensures { result_err result ≡ first_or (line_faults Limit is_large (described devices.now [])) None }
{
    for device in devices {
        check_each(LoadKind::Limit, device.lines.as_slice(), is_large)?;
    }
    Ok(())
}

/// Whether the line's start, length, end or an offset is above the limit.
fn is_large(line: &Line) -> bool
    ensures { result ≡ is_large line.now }
{
    MOST_LENGTH < line.start
        || MOST_LENGTH < line.len
        || MOST_LENGTH - line.start < line.len
        || has_far_span(line)
}

/// Whether an offset in the line is above the limit on lengths.
fn has_far_span(line: &Line) -> bool
    ensures { result ≡ list_any is_far (spans line.now) }
{
    match &line.target {
        Target::Linear { offset, .. } => MOST_LENGTH < *offset,
        Target::Striped { columns, .. } => has_far_column(columns.as_slice()),
        _ => false,
    }
}

/// Whether the offset of a column is above the limit on lengths.
fn has_far_column(columns: &[Column]) -> bool
    ensures { result ≡ list_any (λ column. nat_lt MOST_LENGTH column.offset) columns.now }
{
    columns.iter().any(|column| MOST_LENGTH < column.offset)
}
