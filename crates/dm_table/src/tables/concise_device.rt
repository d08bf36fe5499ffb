//! Reads a device in the concise form: a label, which is a name, a uuid, a minor number and flags, and then
//! the bodies of the device's lines, all separated by commas.
//!
//! A device is cut and read once. Its label and each of its bodies may have a fault; the device's fault is the
//! one whose check runs first. `line_body` reads the bodies, and knows nothing about labels.

ghost use Rattle.dm_table.specs.Prelude.{None, OnOk, IfOk, option_to_list, texts, Reads, lacks, is_uuid, is_minor, is_ro, is_flags, without_first_space, body_fields, is_label, has_label_values, has_label_names, line_in, earlier_of, fault_of_body, fault_of_label, bodies_reading, entries_reading, device_reading};
ghost use Rattle.std.specs.Prelude.{◌≡◌, ◌++◌};

use crate::load::place::{Part, Place};
use crate::load::row_faults::RowFault;
use crate::tables::line_body::{is_body_row, read_body};
use crate::tables::table::{DeviceSpec, Table};
use crate::words::device_name::{Name, are_device_bytes, is_device_name};
use crate::words::fields::{cut_into, cut_row};
use crate::words::number::number;
use memchr::memchr;
use std::alloc::{AllocError, Global};
use std::cmp::min;

/// For how many lines to allocate at most before the lines are read, since a text may consist of nothing but commas.
const MOST_RESERVED: usize = 65536;

/// The device that a text describes, as device `number`. The vectors for the device's entries and for the fields
/// of a body are passed in so that all devices can share them.
pub(crate) fn read_device<'a>(
    alloc: Global,
    entries: &mut Vec<&'a [u8]>,
    fields: &mut Vec<&'a [u8]>,
    text: &'a [u8],
    number: u64,
) -> Result<DeviceSpec, RowFault>
    ensures { Reads (λ device. device) result (device_reading number text.now) }
{
    cut_into(&mut *entries, b',', text)?;
    read_entries(alloc, fields, lacks(b'\n', text), &*entries, number)
}

/// The device that entries describe, as device `number`; `on_a_line` is true if the entries contain no newline.
fn read_entries<'a>(
    alloc: Global,
    fields: &mut Vec<&'a [u8]>,
    on_a_line: bool,
    entries: &[&'a [u8]],
    number: u64,
) -> Result<DeviceSpec, RowFault>
    ensures { Reads (λ device. device) result (entries_reading number on_a_line (texts entries.now)) }
{
    let fault = entry_label_fault(on_a_line, entries);
    let [name, _, _, flags, bodies @ ..] = entries else {
        return Err(RowFault::Syntax);
    };
    let at = Place {
        part: Part::Source,
        number,
    };
    let lines = read_bodies(alloc, fields, fault, bodies, at)?;
    Ok(DeviceSpec {
        name: Name::of_bytes(alloc, *name)?,
        ro: is_ro(*flags),
        lines,
        at,
    })
}

/// The fault of a device's label, if there is one; `on_a_line` is true if the entries contain no newline.
fn entry_label_fault(on_a_line: bool, entries: &[&[u8]]) -> Option<RowFault>
    ensures { result ≡ fault_of_label on_a_line (texts entries.now) }
{
    if !on_a_line || !is_label(entries) {
        Some(RowFault::Syntax)
    } else if !has_label_values(entries) {
        Some(RowFault::Field)
    } else if !has_label_names(entries) {
        Some(RowFault::Name)
    } else {
        None
    }
}

/// Whether the first four entries contain no space, and at least one more entry follows.
fn is_label(entries: &[&[u8]]) -> bool
    ensures { result ≡ is_label (texts entries.now) }
{
    match entries {
        [name, uuid, minor, flags, _, ..] => {
            lacks(b' ', *name) && lacks(b' ', *uuid) && lacks(b' ', *minor) && lacks(b' ', *flags)
        }
        _ => false,
    }
}

/// Whether the minor number and the flags in a label are valid.
fn has_label_values(entries: &[&[u8]]) -> bool
    ensures { result ≡ has_label_values (texts entries.now) }
{
    match entries {
        [_, _, minor, flags, ..] => is_minor(*minor) && is_flags(*flags),
        _ => false,
    }
}

/// Whether the name and the uuid in a label are valid.
fn has_label_names(entries: &[&[u8]]) -> bool
    ensures { result ≡ has_label_names (texts entries.now) }
{
    match entries {
        [name, uuid, ..] => is_device_name(*name) && is_uuid(*uuid),
        _ => false,
    }
}

/// Whether the byte `of` doesn't occur in a text.
fn lacks(of: u8, text: &[u8]) -> bool
    ensures { result ≡ lacks of text.now }
{
    memchr(of, text).is_none()
}

/// Whether an entry is a valid uuid: at most 128 bytes, possibly none, that a device's name may contain.
fn is_uuid(text: &[u8]) -> bool
    ensures { result ≡ is_uuid text.now }
{
    text.len() <= 128 && are_device_bytes(text)
}

/// Whether an entry is a valid minor number: a number, or empty.
fn is_minor(text: &[u8]) -> bool
    ensures { result ≡ is_minor text.now }
{
    text.is_empty() || number(text).is_some()
}

/// Whether an entry is a valid flag: `ro`, `rw`, or empty.
fn is_flags(text: &[u8]) -> bool
    ensures { result ≡ is_flags text.now }
{
    text.is_empty() || is_ro(text) || text == b"rw".as_slice()
}

/// Whether an entry is the flag `ro`, which makes a device read-only.
fn is_ro(text: &[u8]) -> bool
    ensures { result ≡ is_ro text.now }
{
    text == b"ro".as_slice()
}

/// Reads the bodies of a device's lines, which get the device's place; `label` is the fault of the device's label.
fn read_bodies<'a>(
    alloc: Global,
    fields: &mut Vec<&'a [u8]>,
    label: Option<RowFault>,
    bodies: &[&'a [u8]],
    at: Place,
) -> Result<Table, RowFault>
    ensures { Reads (λ lines. lines) result (bodies_reading at label (texts bodies.now)) }
{
    let mut lines = Table::from_vec(Vec::with_capacity(alloc, min(bodies.len(), MOST_RESERVED))?);
    let mut fault = label;
    for body in bodies {
        let found = add_line(alloc, &mut lines, &mut *fields, *body, at)?;
        fault = earlier_of(fault, found);
    }
    match fault {
        Some(fault) => Err(fault),
        None => Ok(lines),
    }
}

/// Appends the line that a body describes to the lines, or returns the fault of the body.
fn add_line<'a>(
    alloc: Global,
    lines: &mut Table,
    fields: &mut Vec<&'a [u8]>,
    body: &'a [u8],
    at: Place,
) -> Result<Option<RowFault>, AllocError>
    ensures fault { IfOk result (λ fault. fault ≡ fault_of_body body.now) }
    ensures line { OnOk result (fault_of_body body.now ≡ None
        → lines.new ≡ lines.old ++ option_to_list (line_in at (body_fields body.now))) }
{
    cut_row(&mut *fields, body)?;
    let row = without_first_space(&*fields);
    if !is_body_row(row) {
        return Ok(Some(RowFault::Syntax));
    }
    match read_body(alloc, lines, row, at) {
        Ok(()) => Ok(None),
        Err(RowFault::Memory) => Err(AllocError),
        Err(fault) => Ok(Some(fault)),
    }
}

/// The fields without the empty first field that comes from a space before a body.
fn without_first_space<'s, 'a>(fields: &'s [&'a [u8]]) -> &'s [&'a [u8]]
    ensures { texts result.now ≡ without_first_space (texts fields.now) }
{
    match fields {
        [first, rest @ ..] => { if first.is_empty() { rest } else { fields } }
        [] => fields,
    }
}

/// Of two faults, the one whose check runs first.
fn earlier_of(first: Option<RowFault>, other: Option<RowFault>) -> Option<RowFault>
    ensures { result ≡ earlier_of first other }
{
    match (first, other) {
        (None, _) => other,
        (Some(RowFault::Field), Some(RowFault::Syntax)) => Some(RowFault::Syntax),
        (Some(RowFault::Name), Some(_)) => other,
        (Some(_), _) => first,
    }
}
