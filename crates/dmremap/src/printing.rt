//! What is printed by the commands that read no requests: the devices of a load, a name or its parts, or what the
//! manual says about a word.
//!
//! Each function writes its text and returns the exit that the command would have; none flushes the output.
//! `specs/Printing.antt` defines what is printed.

ghost use Rattle.dmremap.specs.Prelude.{option_map, built, Does, HasDone, Prints, ReportSays, SaidBy, SplitSays, line, name_said, written_as};
ghost use Rattle.dm_table.specs.io.Progress.{Wrote};
ghost use Rattle.std.specs.Prelude.{◌≡◌, ◌++◌};

use crate::exit::{Exit, Refusal};
use crate::job::TableForm;
use dm_stack::{Stack, check_report};
use dm_table::{
    DeviceSpec, LoadFault, OutFault, Output, Part, write_all, write_concise, write_table,
};
use lvm_volume::{NameFault, build_name, spaced_parts};
use std::alloc::Global;

/// Prints the devices of a stack, in this form.
pub(crate) fn print_stack<W: Output>(form: TableForm, stack: Stack, output: &mut W) -> Exit
    ensures { HasDone (Does (SaidBy (λ said. Prints (written_as form stack.devices) ≡ said)))
        (W.past output.old) (W.past output.new) result }
{
    let (devices, _) = stack.into_parts();
    Exit::after(write_devices(form, &devices, output))
}

/// Writes devices, in this form.
fn write_devices<W: Output>(
    form: TableForm,
    devices: &[DeviceSpec],
    output: &mut W,
) -> Result<(), OutFault>
    ensures { Wrote (W.past output.old) (W.past output.new) result (written_as form devices.now) }
{
    match form {
        TableForm::Table => write_table(devices, output),
        TableForm::Concise => write_concise(devices, output),
    }
}

/// Prints the report of a stack, as `check` does.
pub(crate) fn print_report<W: Output>(alloc: Global, stack: &Stack, output: &mut W) -> Exit
    ensures { HasDone (Does (SaidBy (ReportSays stack.now))) (W.past output.old) (W.past output.new) result }
{
    match check_report(alloc, stack) {
        Ok(text) => print_text(text.as_str().as_bytes(), output),
        Err(_) => Exit::unloaded(LoadFault::memory(Part::Source)),
    }
}

/// Prints the device-mapper name of a logical volume, or of a layer of it.
pub(crate) fn print_name<W: Output>(
    alloc: Global,
    vg: &str,
    lv: &str,
    layer: Option<&str>,
    output: &mut W,
) -> Exit
    ensures { HasDone (Does (SaidBy (λ said. name_said (built
        (record { vg = vg.now; lv = lv.now; layer = option_map (λ l. l.now) layer.entry })) ≡ said)))
        (W.past output.old) (W.past output.new) result }
{
    match build_name(alloc, vg, lv, layer) {
        Ok(name) => print_line(name.as_str().as_bytes(), output),
        Err(fault) => Exit::Refused(Refusal::Name(fault)),
    }
}

/// Prints the parts of a logical volume's device-mapper name.
pub(crate) fn print_parts<W: Output>(alloc: Global, name: &str, output: &mut W) -> Exit
    ensures { HasDone (Does (SaidBy (SplitSays name.now))) (W.past output.old) (W.past output.new) result }
{
    match spaced_parts(alloc, name) {
        Ok(Some(parts)) => print_line(parts.as_bytes(), output),
        Ok(None) => Exit::Refused(Refusal::Split),
        Err(_) => Exit::Refused(Refusal::Name(NameFault::Memory)),
    }
}

/// Prints a text that ends with a newline.
pub(crate) fn print_text<W: Output>(text: &[u8], output: &mut W) -> Exit
    ensures { HasDone (Does (SaidBy (λ said. Prints text.now ≡ said)))
        (W.past output.old) (W.past output.new) result }
{
    Exit::after(write_all(output, text))
}

/// Prints a text and a newline.
fn print_line<W: Output>(text: &[u8], output: &mut W) -> Exit
    ensures { HasDone (Does (SaidBy (λ said. Prints (line text.now) ≡ said)))
        (W.past output.old) (W.past output.new) result }
{
    Exit::after(write_both(output, text, b"\n"))
}

/// Writes one text and then another.
pub(crate) fn write_both<W: Output>(
    output: &mut W,
    first: &[u8],
    text: &[u8],
) -> Result<(), OutFault>
    ensures { Wrote (W.past output.old) (W.past output.new) result (first.now ++ text.now) }
{
    write_all(&mut *output, first)?;
    write_all(output, text)
}
