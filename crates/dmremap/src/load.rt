//! The load: reads the parts whole, parses their texts, and checks the stack that they describe.
//!
//! A refused load leaves nothing behind. Faults take precedence in this order: a part that can't be read, the source's
//! text, the disk list's text, the stack that both describe. A new format is an arm of `load` here and of `PartsGive`
//! in `specs/Load.antt`.

ghost use Rattle.dmremap.specs.Prelude.{IfOk, IfErr, None, OnOk, Some, delivery, Disks, Memory, Read, fault_at, first_fault, TextOf, part_read, IsReadOn, IsReadOnIf, delivery_if, DescribesDevices, Loads, PartsGive, device_checks};
ghost use Rattle.dm_table.specs.load.PartInput.{Refuses};
ghost use Rattle.std.specs.Prelude.{◌≡◌, ◌≢◌};

use crate::job::{Format, TableForm};
use dm_stack::Stack;
use dm_table::{
    DeviceSpec, Input, LoadFault, LoadKind, Part, Place, parse_concise, parse_disks, parse_table,
    read_part,
};
use lvm_volume::parse_metadata;
use std::alloc::Global;

/// Loads the stack of a source and its disk list: reads both, parses both, and checks the stack that they describe.
/// Reads no disk list if the format has none.
///
/// Returns `Memory` only if memory ran out; otherwise returns the first fault of the first check that finds any.
#[tactic(auto, using(crate::proofs::LoadLemmas::untouched))]
pub(crate) fn load<S: Input, D: Input>(
    alloc: Global,
    format: Format,
    source: &mut S,
    disks: &mut Option<D>,
) -> Result<Stack, LoadFault>
    ensures gives { Loads (PartsGive format (delivery (S.past source.old) (S.past source.new))
        (delivery_if D.past disks.old disks.new)) result }
    ensures source { IsReadOn (S.past source.old) (S.past source.new) }
    ensures disks { IsReadOnIf D.past disks.old disks.new }
{
    let text = read_part(alloc, Part::Source, source)?;
    match format {
        Format::Lvm => {
            let (devices, disks) = parse_metadata(alloc, &text)?;
            Stack::load(alloc, devices, disks)
        }
        Format::Tables(form) => {
            let list = read_disks(alloc, disks)?;
            let devices = parse_devices(alloc, form, &text)?;
            let disks = parse_disks(alloc, &list)?;
            Stack::load(alloc, devices, disks)
        }
    }
}

/// The load fault for a part that can't be read.
pub(crate) fn unread(part: Part) -> LoadFault
    ensures { result ≡ fault_at part Read 0 }
{
    LoadFault {
        kind: LoadKind::Read,
        at: Place { part, number: 0 },
    }
}

/// Reads the disk list. A missing disk list is refused like one that can't be read.
fn read_disks<D: Input>(alloc: Global, disks: &mut Option<D>) -> Result<Vec<u8>, LoadFault>
    ensures text { IfOk result
        (λ text. part_read Disks (delivery_if D.past disks.old disks.new) ≡ TextOf text.items) }
    ensures refused { IfErr result (λ fault. fault.kind ≢ Memory
        → part_read Disks (delivery_if D.past disks.old disks.new) ≡ Refuses fault) }
    ensures read_on { IsReadOnIf D.past disks.old disks.new }
{
    match disks {
        Some(input) => read_part(alloc, Part::Disks, input),
        None => Err(unread(Part::Disks)),
    }
}

/// Parses a text of devices in the given form.
fn parse_devices(alloc: Global, form: TableForm, text: &[u8]) -> Result<Vec<DeviceSpec>, LoadFault>
    ensures described { IfOk result (λ devices. DescribesDevices form text.now devices.items) }
    ensures sound { OnOk result (first_fault (device_checks form text.now) ≡ None) }
    ensures refused { IfErr result (λ fault. fault.kind ≢ Memory
        → first_fault (device_checks form text.now) ≡ Some fault) }
{
    match form {
        TableForm::Table => parse_table(alloc, text),
        TableForm::Concise => parse_concise(alloc, text),
    }
}
