//! Reads table text: a line `NAME: START LEN TYPE ARGS` for each line of a table, as in dmsetup(8).
//!
//! Lines are read in order, each once, and added to the devices so far; their faults are kept until
//! the end, when the fault whose check runs first is returned. A new target type belongs in
//! `line_body`.

ghost use Rattle.dm_table.specs.Prelude.{Source, IsParsed, Reads, made_of, DescribesTable, is_row, table_checks, row_fields, texts, named_in, named_reading, alone, add_line, add_said};
ghost use Rattle.dm_table.specs.tables.TableText.{has_values, has_names};

use crate::load::load_fault::LoadFault;
use crate::load::place::{Part, Place};
use crate::load::reading::{FromRows, read_lines};
use crate::load::row_faults::RowFault;
use crate::tables::line_body::{is_body_row, read_body};
use crate::tables::table::{DeviceSpec, Table};
use crate::tables::table_row::{is_label, name_in};
use crate::words::device_name::{Name, is_device_name};
use crate::words::fields::cut_row;
use std::alloc::{AllocError, Global};

/// The devices in table text, in order. Neighbouring lines with the same name form one device, whose
/// place is its first line. A line may end with one space, and all devices are writable. Starts,
/// lengths, chunk sizes and offsets are in sectors of 512 bytes, below 10^19. The form is that of
/// dmsetup(8). A striped line names the number of its columns, which may be 0.
///
/// Any other text has the fault of the first of these checks that finds one, at the first line where it does:
/// `NotText` for a byte other than 0x20 to 0x7E and a newline; `Syntax` for fewer than four fields with single
/// spaces between them, a first field without a colon at its end, or no newline at the end; `Field` for an
/// invalid number, an unknown target type or wrong arguments; `Name` for an invalid name of a device or disk.
/// `Memory`, with number 0, comes if an allocation is refused. Takes time linear in the length of the text.
pub fn parse_table(alloc: Global, text: &[u8]) -> Result<Vec<DeviceSpec>, LoadFault>
    // An accepted text describes the devices that are returned; for a refused text, the first fault of the
    // first check that finds any is returned.
    ensures { IsParsed Source (DescribesTable text.now) (table_checks text.now) result }
{
    read_lines(alloc, Part::Source, text)
}

impl FromRows for DeviceSpec {
    ghost row_of = { row_fields };

    ghost is_row = { is_row };

    ghost has_values = { has_values };

    ghost has_names = { has_names };

    ghost with_row = { λ devices n row. add_said devices (named_in n row) };

    fn cut_line<'a>(row: &mut Vec<&'a [u8]>, line: &'a [u8]) -> Result<(), AllocError> {
        cut_row(row, line)
    }

    fn read_row(
        alloc: Global,
        devices: &mut Vec<DeviceSpec>,
        row: &[&[u8]],
        number: u64,
    ) -> Result<(), RowFault> {
        let [label, body @ ..] = row else {
            return Err(RowFault::Syntax);
        };
        if !is_label(*label) || !is_body_row(body) {
            return Err(RowFault::Syntax);
        }
        let at = Place {
            part: Part::Source,
            number,
        };
        read_line(alloc, devices, name_in(*label), body, at)
    }
}

/// Reads a body, and appends its line to the last device if that device has this name, else to a new device.
fn read_line(
    alloc: Global,
    devices: &mut Vec<DeviceSpec>,
    name: &[u8],
    body: &[&[u8]],
    at: Place,
) -> Result<(), RowFault>
    ensures { Reads (λ done. devices.new.items) result
        (made_of (add_line devices.old.items) (named_reading name.now at (texts body.now))) }
{
    if let Some(last) = devices.last_mut() {
        if name == last.name.as_str().as_bytes() {
            return read_body(alloc, &mut last.lines, body, at);
        }
    }
    devices.push(read_device(alloc, name, body, at)?)?;
    Ok(())
}

/// Reads a body, and returns a new device with that one line.
fn read_device(
    alloc: Global,
    name: &[u8],
    body: &[&[u8]],
    at: Place,
) -> Result<DeviceSpec, RowFault>
    ensures { Reads (λ device. device) result (made_of alone (named_reading name.now at (texts body.now))) }
{
    let mut lines = Table::from_vec(Vec::new(alloc));
    read_body(alloc, &mut lines, body, at)?;
    if !is_device_name(name) {
        return Err(RowFault::Name);
    }
    Ok(DeviceSpec {
        name: Name::of_bytes(alloc, name)?,
        ro: false,
        lines,
        at,
    })
}
