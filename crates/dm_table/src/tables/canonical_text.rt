//! Writes devices as table text or in the concise form. Each form has one text for a given list of
//! devices.
//!
//! A text is written part by part, without allocating; an output that is slow for small writes should
//! have a buffer in front of it. A line is written as one part, plus one for each column of a striped line
//! and one for the newline. A new target needs an arm in `line_head`, and one in `write_columns_of` only if
//! its text, like a striped line's, has no greatest length.

ghost use Rattle.dm_table.specs.Prelude.{length, map, flat_map, join_with_byte, column_text, body_text, columns_of, DescribesTable, DescribesConcise, ReadsBack, as_table, lines_text, table_text, flag_text, concise_device, concise_text, as_concise, Wrote, code};
ghost use Rattle.std.specs.Prelude.{◌≡◌, ◌≤◌, ◌∷◌, ◌++◌};

use crate::io::device_io::{OutFault, Output};
use crate::io::writing::write_all;
use crate::tables::line_head::{ColumnText, LineHead};
use crate::tables::table::{Column, DeviceSpec, Line, Target};

/// Writes the columns of a striped line in order, each with a space before it.
fn write_columns<W: Output>(writer: &mut W, columns: &[Column]) -> Result<(), OutFault>
    ensures { Wrote (W.past writer.old) (W.past writer.new) result (flat_map column_text columns.now) }
{
    for column in columns {
        writer.put(&ColumnText::new(column))?;
    }
    Ok(())
}

/// Writes the columns of a target; only a striped target has columns.
fn write_columns_of<W: Output>(writer: &mut W, target: &Target) -> Result<(), OutFault>
    ensures { Wrote (W.past writer.old) (W.past writer.new) result
        (flat_map column_text (columns_of target.now)) }
{
    match target {
        Target::Striped { columns, .. } => write_columns(writer, columns.as_slice()),
        _ => write_all(writer, b""),
    }
}

/// Writes the body of a line, after a name and a mark such as `: ` or a comma.
fn write_body<W: Output>(
    writer: &mut W,
    name: &[u8],
    mark: &[u8],
    line: &Line,
) -> Result<(), OutFault>
    requires name { length name.now ≤ 127 }
    requires mark { length mark.now ≤ 2 }
    ensures { Wrote (W.past writer.old) (W.past writer.new) result
        (name.now ++ mark.now ++ body_text line.now) }
{
    writer.put(&LineHead::new(name, mark, line))?;
    write_columns_of(writer, &line.target)
}

/// Writes the lines of one device as table text.
fn write_lines<W: Output>(writer: &mut W, name: &[u8], lines: &[Line]) -> Result<(), OutFault>
    requires { length name.now ≤ 127 }
    ensures { Wrote (W.past writer.old) (W.past writer.new) result (lines_text name.now lines.now) }
{
    for line in lines {
        write_body(&mut *writer, name, b": ", line)?;
        write_all(&mut *writer, b"\n")?;
    }
    Ok(())
}

/// Writes devices as table text: `NAME: START LEN TYPE ARGS` for each line, in order. Whether a device is
/// read-only is lost, because table text has no flag for it.
///
/// At a fault only a prefix of the text has been written, and nothing is retried. Allocates nothing, and
/// makes a few writes for each line.
pub fn write_table<W: Output>(devices: &[DeviceSpec], writer: &mut W) -> Result<(), OutFault>
    // If any table text describes these devices, apart from places and flags, then so does the text that is written.
    ensures reads_back { ReadsBack DescribesTable (as_table 1) table_text devices.now }
    ensures wrote { Wrote (W.past writer.old) (W.past writer.new) result (table_text devices.now) }
{
    write_every_line(writer, devices)
}

/// Writes the lines of all devices as table text.
#[tactic(auto, using(crate::proofs::words::ByteLemmas::device_name_len))]
fn write_every_line<W: Output>(writer: &mut W, devices: &[DeviceSpec]) -> Result<(), OutFault>
    ensures { Wrote (W.past writer.old) (W.past writer.new) result (table_text devices.now) }
{
    for device in devices {
        write_lines(
            &mut *writer,
            device.name.as_str().as_bytes(),
            device.lines.as_slice(),
        )?;
    }
    Ok(())
}

/// Writes the bodies of lines, with a comma before each body.
fn write_more_bodies<W: Output>(writer: &mut W, lines: &[Line]) -> Result<(), OutFault>
    ensures { Wrote (W.past writer.old) (W.past writer.new) result
        (flat_map (λ line. code "," ∷ body_text line) lines.now) }
{
    for line in lines {
        write_body(&mut *writer, b"", b",", line)?;
    }
    Ok(())
}

/// Writes the bodies of lines, with commas between them.
fn write_bodies<W: Output>(writer: &mut W, lines: &[Line]) -> Result<(), OutFault>
    ensures { Wrote (W.past writer.old) (W.past writer.new) result
        (join_with_byte (code ",") (map body_text lines.now)) }
{
    match lines {
        [first, rest @ ..] => {
            write_body(&mut *writer, b"", b"", first)?;
            write_more_bodies(writer, rest)
        }
        [] => write_all(writer, b""),
    }
}

/// Writes the text `before`, and then a device in the concise form.
fn write_device<W: Output>(
    writer: &mut W,
    before: &[u8],
    device: &DeviceSpec,
) -> Result<(), OutFault>
    ensures { Wrote (W.past writer.old) (W.past writer.new) result (before.now ++ concise_device device.now) }
{
    write_all(&mut *writer, before)?;
    write_all(&mut *writer, device.name.as_str().as_bytes())?;
    write_all(&mut *writer, flag_text(device.ro))?;
    write_bodies(writer, device.lines.as_slice())
}

/// The text between a device's name and its lines: an empty uuid, an empty minor number, and ro or rw.
fn flag_text(ro: bool) -> &'static [u8]
    ensures { result.now ≡ flag_text ro }
{
    if ro {
        b",,,ro,".as_slice()
    } else {
        b",,,rw,".as_slice()
    }
}

/// Writes devices in the concise form, with a semicolon before each device.
fn write_more_devices<W: Output>(writer: &mut W, devices: &[DeviceSpec]) -> Result<(), OutFault>
    ensures { Wrote (W.past writer.old) (W.past writer.new) result
        (flat_map (λ device. code ";" ∷ concise_device device) devices.now) }
{
    for device in devices {
        write_device(&mut *writer, b";", device)?;
    }
    Ok(())
}

/// Writes devices in the concise form, with semicolons between them.
fn write_devices<W: Output>(writer: &mut W, devices: &[DeviceSpec]) -> Result<(), OutFault>
    ensures { Wrote (W.past writer.old) (W.past writer.new) result
        (join_with_byte (code ";") (map concise_device devices.now)) }
{
    match devices {
        [first, rest @ ..] => {
            write_device(&mut *writer, b"", first)?;
            write_more_devices(writer, rest)
        }
        [] => write_all(writer, b""),
    }
}

/// Writes devices in the concise form of dmsetup(8), with empty uuids and minor numbers: each device is
/// `NAME,,,FLAG,` and its lines, separated by commas; semicolons separate devices, and a newline ends the text.
///
/// At a fault only a prefix of the text has been written, and nothing is retried. Allocates nothing, and
/// makes a few writes for each line.
pub fn write_concise<W: Output>(devices: &[DeviceSpec], writer: &mut W) -> Result<(), OutFault>
    // If any text in the concise form describes these devices, apart from places, then so does the text written.
    ensures reads_back { ReadsBack DescribesConcise (as_concise 1) concise_text devices.now }
    ensures wrote { Wrote (W.past writer.old) (W.past writer.new) result (concise_text devices.now) }
{
    write_ended(writer, devices)
}

/// Writes devices in the concise form, with semicolons between them and a newline at the end.
fn write_ended<W: Output>(writer: &mut W, devices: &[DeviceSpec]) -> Result<(), OutFault>
    ensures { Wrote (W.past writer.old) (W.past writer.new) result (concise_text devices.now) }
{
    write_devices(&mut *writer, devices)?;
    write_all(writer, b"\n")
}
