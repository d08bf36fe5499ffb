//! The status lines of snapshots, which report how much of each exception store is used.
//!
//! Status lines are written once in a run, after the last answer, so each is made in an array of its own and written by
//! plain calls. `specs/runs/StatusLines.antt` defines the text.

ghost use Rattle.dm_stream.specs.Prelude.{[], length, Wrote, code, device_len, name_at, with_looked, after_name, status_text, usage_text};
ghost use Rattle.std.specs.Prelude.{◌≡◌, ◌++◌, ◌<◌, ◌≤◌, ◌∷◌};

use arrayvec::ArrayVec;
use dm_map::{Mapper, Taken, Usage};
use dm_stack::{DeviceId, Stack};
use dm_table::{OutFault, Output, append, append_number, write_all};

/// The longest status line after the device's name: four numbers of 20 digits, and the text around them.
const REST_BYTES: usize = 128;

/// Writes a status line for each snapshot of a mapper's stack, in the order of the devices.
///
/// If a write fails, only a prefix of the lines is written, and the write isn't tried again. Cost: one look-up and two
/// writes for each snapshot. Allocates nothing.
pub(crate) fn write_status<T: Taken, W: Output>(
    stack: &Stack,
    mapper: &mut Mapper<'_, T>,
    output: &mut W,
) -> Result<(), OutFault>
    requires { mapper.old.stack ≡ stack.now }
    ensures same { mapper.new ≡ with_looked mapper.old mapper.new.looked }
    ensures wrote { Wrote (W.past output.old) (W.past output.new) result
        (status_text stack.now mapper.old.state) }
{
    for device in stack.snapshots() {
        let usage = mapper.usage(*device);
        write_line(stack, *device, usage, &mut *output)?;
    }
    Ok(())
}

/// Writes the status line of a device of the stack that has this usage.
fn write_line<W: Output>(
    stack: &Stack,
    device: DeviceId,
    usage: Usage,
    output: &mut W,
) -> Result<(), OutFault>
    requires { device < length stack.now.devices }
    ensures { Wrote (W.past output.old) (W.past output.new) result
        (name_at stack.now device ++ after_name (device_len stack.now device) usage) }
{
    write_all(&mut *output, stack.name(device).as_bytes())?;
    write_all(output, after_name(stack.len(device), usage).as_slice())
}

/// The part of a snapshot's status line after its name. `len` is the snapshot's length in sectors.
fn after_name(len: u64, usage: Usage) -> ArrayVec<u8, REST_BYTES>
    ensures { result.items ≡ after_name len usage }
{
    let mut text = ArrayVec::new();
    append(&mut text, b": 0 ");
    append_number(&mut text, len);
    append(&mut text, b" snapshot ");
    put_usage(&mut text, usage);
    text
}

/// Appends how many sectors of an exception store are used, or that its snapshot is invalid, and a newline.
fn put_usage(text: &mut ArrayVec<u8, REST_BYTES>, usage: Usage)
    requires { length text.old.items ≤ 40 }
    ensures { text.new.items ≡ text.old.items ++ usage_text usage ++ code "\n" ∷ [] }
{
    if usage.valid {
        append_number(text, usage.allocated);
        append(text, b"/");
        append_number(text, usage.total);
        append(text, b" ");
        append_number(text, usage.metadata);
    } else {
        append(text, b"Invalid");
    }
    append(text, b"\n");
}
