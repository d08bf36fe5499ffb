//! Reads a metadata text, from its bytes to the devices and disks of its group.
//!
//! The steps are called in the order of their faults: bytes that aren't UTF-8, the syntax of the text, the group, the
//! device names of its volumes. This module has no rules of its own.

ghost use Rattle.lvm_volume.specs.Prelude.{IfErr, IfOk, IsUtf8, Memory, NotText, Source, Answers, IsMemoryFault, fault_at, first_fault, unless, group_of, DescribesGroup, IsRefusedText, SaysOneThing, bad_byte_line, metadata_checks, tables_of};
ghost use Rattle.std.specs.Prelude.{◌≡◌, ◌≢◌};

use crate::fields::source_line::source_fault;
use crate::refused_text::text_fault;
use crate::volume_group::VolumeGroup;
use dm_table::{DeviceSpec, Disk, LoadFault, LoadKind};
use lvm_text::{Section, end_line, parse};
use std::alloc::Global;

/// The devices and disks that an LVM2 metadata text describes, or the fault for which it is refused.
///
/// The fault is `NotText` on the line of the first byte that isn't UTF-8, or else the fault of the text as `text_fault`
/// returns it, or else that of the group as `VolumeGroup::read` and `VolumeGroup::tables` return it. `Memory` is
/// returned only if an allocation was refused. All places are in the part `source`.
///
/// Cost: near-linear in the length of the text. Source: vgcfgbackup(8).
pub fn parse_metadata(
    alloc: Global,
    source: &[u8],
) -> Result<(Vec<DeviceSpec>, Vec<Disk>), LoadFault>
    ensures described { IfOk result (λ tables. DescribesGroup source.now (tables.0.items, tables.1.items)) }
    ensures refused { IfErr result (λ fault. fault.kind ≢ Memory → IsRefusedText source.now fault) }
    ensures memory { IfErr result (λ fault. fault.kind ≡ Memory → IsMemoryFault Source fault) }
    // Every text describes exactly one list of devices and one of disks, or has exactly one fault.
    ensures one { SaysOneThing source.now }
{
    let text = utf8_text(source)?;
    match parse(alloc, text) {
        Ok(top) => group_tables(alloc, &top),
        Err(fault) => Err(text_fault(fault)),
    }
}

/// The bytes as a text, or the fault on the line of the first byte that isn't UTF-8.
pub(crate) fn utf8_text(source: &[u8]) -> Result<&str, LoadFault>
    ensures text { IfOk result (λ text. (text.now ≡ source.now) × IsUtf8 source.now) }
    ensures fault { IfErr result (λ fault. ¬ (IsUtf8 source.now)
        × (fault ≡ fault_at Source NotText (bad_byte_line source.now))) }
{
    match std::str::from_utf8(source) {
        Ok(text) => Ok(text),
        Err(error) => Err(source_fault(
            LoadKind::NotText,
            end_line(&source[..error.valid_up_to()]),
        )),
    }
}

/// The devices and disks of the group in a tree, or the first fault of a check.
fn group_tables(alloc: Global, top: &Section<'_>) -> Result<(Vec<DeviceSpec>, Vec<Disk>), LoadFault>
    ensures { Answers Source (λ tables. (tables.0.items, tables.1.items)) result
        (unless (first_fault (metadata_checks top.now)) (tables_of (group_of top.now))) }
{
    match VolumeGroup::read(alloc, top) {
        Ok(group) => group.tables(alloc),
        Err(fault) => Err(fault),
    }
}
