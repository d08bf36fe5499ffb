//! Reads the body of a line of a table: a start, a length, and a target with its arguments.
//!
//! Each form of a table has its own label before a body, and its reader passes only the body's fields to this
//! module, which reads them once, directly into a line, up to the first fault. A new target type needs an arm
//! in `read_target`; in `specs/tables/LineBody.antt`, an arm in `target_row` and one in `other_in`; and in
//! `specs/tables/Span.antt`, an arm of `target_spans` for the devices that the target names.

ghost use Rattle.dm_table.specs.Base.{[], ℕ, Bool, List, Option, Ok, true, false, length, drop, is_some, nat_lt, MatchOption, list_all};
ghost use Rattle.dm_table.specs.words.Fields.{texts};
ghost use Rattle.dm_table.specs.words.Name.{names_device, mapper};
ghost use Rattle.dm_table.specs.words.Number.{number_of};
ghost use Rattle.dm_table.specs.tables.LineBody.{is_body_row, is_dev_ref, columns_in, is_count, then_in, nothing_in, lower_in, linear_in, striped_in, other_in, has_target_names, kind_in};
ghost use Rattle.dm_table.specs.tables.LineReading.{dev_reading, reading_of, both_read, has_column_names, columns_reading, fault_before, target_reading, body_reading, line_of, with_line, with_target};
ghost use Rattle.dm_table.specs.load.RowFaults.{Reads};
ghost use Rattle.std.specs.Prelude.{◌≡◌, ◌++◌, ◌∷◌, ◌&&◌};

use crate::load::place::Place;
use crate::load::row_faults::RowFault;
use crate::tables::table::{Column, Columns, DevRef, Line, StoreKind, Table, Target};
use crate::words::device_name::{Name, is_device_name};
use crate::words::disk_name::{DiskName, is_disk_name};
use crate::words::number::number;
use std::alloc::Global;

/// Whether there are enough fields for a body, none of them empty.
pub(crate) fn is_body_row(fields: &[&[u8]]) -> bool
    ensures { result ≡ is_body_row (texts fields.now) }
{
    let filled = are_filled(fields);
    fields.len() >= 3 && filled
}

/// Whether none of the fields is empty.
fn are_filled(fields: &[&[u8]]) -> bool
    ensures { result ≡ list_all (λ field. nat_lt 0 (length field)) (texts fields.now) }
{
    for field in fields {
        if field.is_empty() {
            return false;
        }
    }
    true
}

/// The start and the length of a line, which come before its target, and the line's place.
#[derive(Clone, Copy)]
pub(crate) struct BodyHead {
    pub start: u64,
    pub len: u64,
    pub at: Place,
}

impl BodyHead {
    /// Appends a line with this head and target to the lines. The line is built in place.
    #[inline(always)]
    fn push(&self, alloc: Global, lines: &mut Table, target: Target) -> Result<(), RowFault>
        ensures { Reads (λ done. lines.new) result (Ok (lines.old ++ line_of self.now target ∷ [])) }
    {
        lines.push(
            alloc,
            Line {
                start: self.start,
                len: self.len,
                target,
                at: self.at,
            },
        )?;
        Ok(())
    }
}

/// Appends the line that a body describes to the lines. Of several faults, `Field` takes precedence over `Name`.
pub(crate) fn read_body(
    alloc: Global,
    lines: &mut Table,
    fields: &[&[u8]],
    at: Place,
) -> Result<(), RowFault>
    ensures { Reads (λ done. lines.new) result (with_line lines.old (body_reading at (texts fields.now))) }
{
    let [start, len, kind, arguments @ ..] = fields else {
        return Err(RowFault::Field);
    };
    let Some(start) = number(*start) else {
        return Err(RowFault::Field);
    };
    let Some(len) = number(*len) else {
        return Err(RowFault::Field);
    };
    read_typed(alloc, lines, &BodyHead { start, len, at }, *kind, arguments)
}

/// Appends a line with a target of this type. Lines with the most common targets are built in place.
fn read_typed(
    alloc: Global,
    lines: &mut Table,
    head: &BodyHead,
    kind: &[u8],
    arguments: &[&[u8]],
) -> Result<(), RowFault>
    ensures { Reads (λ done. lines.new) result
        (with_target lines.old head.now (target_reading kind.now (texts arguments.now))) }
{
    if kind == b"linear".as_slice() {
        read_linear(alloc, lines, head, arguments)
    } else if kind == b"zero".as_slice() {
        if !arguments.is_empty() {
            return Err(RowFault::Field);
        }
        head.push(alloc, lines, Target::Zero)
    } else if kind == b"error".as_slice() {
        if !arguments.is_empty() {
            return Err(RowFault::Field);
        }
        head.push(alloc, lines, Target::Error)
    } else {
        match read_target(alloc, kind, arguments) {
            Ok(target) => head.push(alloc, lines, target),
            Err(fault) => Err(fault),
        }
    }
}

/// Appends a line whose target is the linear target with these arguments.
fn read_linear(
    alloc: Global,
    lines: &mut Table,
    head: &BodyHead,
    arguments: &[&[u8]],
) -> Result<(), RowFault>
    ensures { Reads (λ done. lines.new) result
        (with_target lines.old head.now (reading_of has_target_names (linear_in (texts arguments.now)))) }
{
    let [to, offset] = arguments else {
        return Err(RowFault::Field);
    };
    let Some(offset) = number(*offset) else {
        return Err(RowFault::Field);
    };
    let to = read_dev(alloc, *to)?;
    head.push(alloc, lines, Target::Linear { to, offset })
}

/// The striped, snapshot or snapshot-origin target with these arguments.
fn read_target(alloc: Global, kind: &[u8], arguments: &[&[u8]]) -> Result<Target, RowFault>
    ensures { Reads (λ target. target) result
        (reading_of has_target_names (other_in kind.now (texts arguments.now))) }
{
    if kind == b"striped".as_slice() {
        read_striped(alloc, arguments)
    } else if kind == b"snapshot".as_slice() {
        Arguments::read_all(alloc, arguments).map(|(origin, (store, (kind, (chunk, ()))))| {
            Target::Snapshot {
                origin,
                store,
                kind,
                chunk,
            }
        })
    } else if kind == b"snapshot-origin".as_slice() {
        Arguments::read_all(alloc, arguments).map(|(origin, ())| Target::Origin { origin })
    } else {
        Err(RowFault::Field)
    }
}

/// The striped target with these arguments.
fn read_striped(alloc: Global, arguments: &[&[u8]]) -> Result<Target, RowFault>
    ensures { Reads (λ target. target) result (reading_of has_target_names (striped_in (texts arguments.now))) }
{
    let [count, others @ ..] = arguments else {
        return Err(RowFault::Field);
    };
    if !is_count(*count, others.len()) {
        return Err(RowFault::Field);
    }
    Arguments::read_all(alloc, others).map(|(chunk, columns)| Target::Striped { chunk, columns })
}

/// A type of value that one argument of a target is read into.
trait Argument: Drop {
    /// The value that a field describes.
    ghost said: { List ℕ → Option Self };

    /// Whether the value is a valid name, or no name at all.
    ghost has_name: { Self → Bool };

    /// Reads a field as a value.
    fn read(alloc: Global, field: &[u8]) -> Result<Self, RowFault>
        ensures { Reads (λ x. x) result (reading_of has_name (said field.now)) };
}

impl Argument for u64 {
    ghost said = { number_of };

    ghost has_name = { λ n. true };

    #[inline(always)]
    fn read(_: Global, field: &[u8]) -> Result<u64, RowFault> {
        match number(field) {
            Some(n) => Ok(n),
            None => Err(RowFault::Field),
        }
    }
}

impl Argument for StoreKind {
    ghost said = { kind_in };

    ghost has_name = { λ kind. true };

    fn read(_: Global, field: &[u8]) -> Result<StoreKind, RowFault> {
        if field == b"P".as_slice() {
            Ok(StoreKind::Persistent)
        } else if field == b"N".as_slice() {
            Ok(StoreKind::Transient)
        } else if field == b"K".as_slice() {
            Ok(StoreKind::Keeping)
        } else {
            Err(RowFault::Field)
        }
    }
}

impl Argument for DevRef {
    ghost said = { lower_in };

    ghost has_name = { is_dev_ref };

    #[inline(always)]
    fn read(alloc: Global, field: &[u8]) -> Result<DevRef, RowFault> {
        read_dev(alloc, field)
    }
}

/// A list of types of values that the arguments of a target are read into, in order.
trait Arguments: Drop {
    /// The values that the fields describe.
    ghost said: { List (List ℕ) → Option Self };

    /// Whether all names among the values are valid.
    ghost has_names: { Self → Bool };

    /// Reads all fields as values. Of several faults, `Field` takes precedence over `Name`.
    fn read_all(alloc: Global, fields: &[&[u8]]) -> Result<Self, RowFault>
        ensures { Reads (λ x. x) result (reading_of has_names (said (texts fields.now))) };
}

impl Arguments for () {
    ghost said = { nothing_in };

    ghost has_names = { λ nothing. true };

    #[inline(always)]
    fn read_all(_: Global, fields: &[&[u8]]) -> Result<(), RowFault> {
        if fields.is_empty() {
            Ok(())
        } else {
            Err(RowFault::Field)
        }
    }
}

impl<A: Argument, R: Arguments> Arguments for (A, R) {
    ghost said = { then_in A.said R.said };

    ghost has_names = { λ both. A.has_name both.0 && R.has_names both.1 };

    #[inline(always)]
    fn read_all(alloc: Global, fields: &[&[u8]]) -> Result<(A, R), RowFault> {
        let [first, others @ ..] = fields else {
            return Err(RowFault::Field);
        };
        both(A::read(alloc, *first), R::read_all(alloc, others))
    }
}

impl Arguments for Columns {
    ghost said = { columns_in };

    ghost has_names = { has_column_names };

    fn read_all(alloc: Global, fields: &[&[u8]]) -> Result<Columns, RowFault> {
        read_columns(alloc, fields)
    }
}

/// Joins two results into a pair. If both fail, the fault is the first one unless that is `Name`, and else the second.
#[inline(always)]
fn both<A: Drop, B: Drop>(
    first: Result<A, RowFault>,
    others: Result<B, RowFault>,
) -> Result<(A, B), RowFault>
    ensures { result ≡ both_read first others }
{
    match first {
        Ok(first) => match others {
            Ok(others) => Ok((first, others)),
            Err(fault) => Err(fault),
        },
        Err(RowFault::Name) => match others {
            Ok(_) => Err(RowFault::Name),
            Err(fault) => Err(fault),
        },
        Err(fault) => Err(fault),
    }
}

/// Whether `count` is the number of columns that `others` more fields describe: two for each column and one for the
/// chunk size. Halving the number of fields can't overflow, as doubling the count could.
fn is_count(count: &[u8], others: usize) -> bool
    ensures { result ≡ is_count count.now others }
{
    match number(count) {
        Some(count) => others % 2 == 1 && others as u64 / 2 == count,
        None => false,
    }
}

/// The columns in fields that come in pairs, a name and a number. One pass.
fn read_columns(alloc: Global, fields: &[&[u8]]) -> Result<Columns, RowFault>
    ensures { Reads (λ columns. columns) result (columns_reading (texts fields.now)) }
{
    let mut columns = Vec::new(alloc);
    let mut rest = fields;
    while let [to, offset, more @ ..] = rest {
        let Some(offset) = number(*offset) else {
            return Err(RowFault::Field);
        };
        let to = match read_dev(alloc, *to) {
            Ok(to) => to,
            Err(fault) => return Err(fault_before(fault, more)),
        };
        match columns.push(Column { to, offset }) {
            Ok(()) => {}
            Err(_) => return Err(RowFault::Memory),
        }
        rest = more;
    }
    if !rest.is_empty() {
        return Err(RowFault::Field);
    }
    Ok(Columns::from_vec(columns))
}

/// The fault of columns, from the fault of the first column and the fields of the others: a `Field` fault of
/// the others takes precedence over `Name`.
fn fault_before(fault: RowFault, fields: &[&[u8]]) -> RowFault
    ensures { result ≡ fault_before fault (texts fields.now) }
{
    match fault {
        RowFault::Name if !are_columns(fields) => RowFault::Field,
        _ => fault,
    }
}

/// Whether fields come in pairs, and the second field of each pair is a number. One pass.
fn are_columns(fields: &[&[u8]]) -> bool
    ensures { result ≡ is_some (columns_in (texts fields.now)) }
{
    let mut rest = fields;
    while let [_, offset, more @ ..] = rest {
        if number(*offset).is_none() {
            return false;
        }
        rest = more;
    }
    rest.is_empty()
}

/// The device or disk that a field names: a device if the field begins with `/dev/mapper/`, else a disk.
fn read_dev(alloc: Global, text: &[u8]) -> Result<DevRef, RowFault>
    ensures { Reads (λ dev. dev) result (dev_reading text.now) }
{
    match device_name_in(text) {
        Some(name) => {
            if !is_device_name(name) {
                return Err(RowFault::Name);
            }
            Ok(DevRef::Device(Name::of_bytes(alloc, name)?))
        }
        None => {
            if !is_disk_name(text) {
                return Err(RowFault::Name);
            }
            Ok(DevRef::Disk(DiskName::of_bytes(alloc, text)?))
        }
    }
}

/// The bytes of a field after `/dev/mapper/`, or `None` if the field doesn't begin with it and so names no device.
fn device_name_in(text: &[u8]) -> Option<&[u8]>
    ensures { MatchOption result (names_device text.now ≡ false)
        (λ name. (names_device text.now ≡ true) × (name.now ≡ drop (length mapper) text.now)) }
{
    text.strip_prefix(b"/dev/mapper/")
}
