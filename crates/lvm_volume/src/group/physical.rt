//! Physical volumes as their sections describe them, and the names of their disks.
//!
//! The device in a section is only a hint, and two physical volumes may have the same device. So a disk is named after
//! its device only if the device is an absolute path that no other physical volume has, and otherwise after the key.
//! The rule is `chosen` in `specs/group/Group.antt`.

ghost use Rattle.lvm_volume.specs.Prelude.{Err, List, [], ℕ, None, false, true, map, nat_lt, unwrap_or, IfOk, result_err, nat_cmp, slice_cmp, get_by, item_view, Source, Answers, unless, is_disk_name, fields_faults, first_of, physical_fields, physicals_faults, IsStep, name_faults, chosen, Counts, all_named, fields_of, fields_view, with_disk_name, devices_in};
ghost use Rattle.dm_table.specs.declared.words.name.CheckFault.TheVariants.{Form};
ghost use Rattle.std.specs.Prelude.{◌≡◌, ◌∷◌};

use crate::fields::reader::{FieldReader, NumberKind, text_at};
use crate::fields::source_line::{memory_fault, source_fault};
use dm_table::{CheckFault, DiskName, LoadFault, LoadKind};
use lvm_text::Section;
use std::alloc::{AllocError, Global};
use std::collections::BTreeMap;

/// A physical volume as its section describes it: the key, the device, the size of the device in sectors, the sector at
/// which the extents begin, the number of extents, and the line of the key.
#[derive(Clone, Copy, Drop)]
pub(crate) struct PhysicalFields<'a> {
    pub key: &'a str,
    pub device: &'a str,
    pub size: u64,
    pub start: u64,
    pub count: u64,
    pub line: u64,
}

/// A physical volume: the name of its disk, the size of the disk in sectors, the sector at which the extents begin, the
/// number of extents, and the line of the key.
#[derive(Debug, Drop)]
pub(crate) struct Physical {
    pub disk: DiskName,
    pub size: u64,
    pub start: u64,
    pub count: u64,
    pub line: u64,
}

/// Reads the fields of the physical volumes in these sections.
pub(crate) fn fields_in<'s, 'a>(
    alloc: Global,
    reader: &mut FieldReader,
    sections: &[(&'a str, &'s Section<'a>)],
) -> Result<Vec<PhysicalFields<'a>>, LoadFault>
    ensures step { IsStep (λ check. physicals_faults check (map item_view sections.now)) reader.old reader.new
        (result_err result) }
    ensures value { IfOk result
        (λ v. map fields_view v.items ≡ map fields_of (map item_view sections.now)) }
{
    let Ok(mut all) = Vec::with_capacity(alloc, sections.len()) else {
        return Err(memory_fault());
    };
    for section in sections {
        let fields = fields_of(reader, section.0, section.1)?;
        let Ok(()) = all.push(fields) else {
            return Err(memory_fault());
        };
    }
    Ok(all)
}

/// Reads the fields of one physical volume.
fn fields_of<'a>(
    reader: &mut FieldReader,
    key: &'a str,
    section: &Section<'a>,
) -> Result<PhysicalFields<'a>, LoadFault>
    ensures step { IsStep (λ check. fields_faults check section.now physical_fields) reader.old reader.new
        (result_err result) }
    ensures value { IfOk result (λ fields. fields_view fields ≡ fields_of (key.now, section.now)) }
{
    let device = text_at(section, "device")?;
    let size = reader.number(section, "dev_size", NumberKind::Any)?;
    let start = reader.number(section, "pe_start", NumberKind::Any)?;
    let count = reader.number(section, "pe_count", NumberKind::Extents)?;
    Ok(PhysicalFields {
        key,
        device,
        size,
        start,
        count,
        line: section.line(),
    })
}

/// Names the disks of all physical volumes, or fails at the first one for which there is no valid name.
///
/// Cost: near-linear; allocates for each name.
pub(crate) fn named_physicals(
    alloc: Global,
    all: &[PhysicalFields<'_>],
) -> Result<Vec<Physical>, LoadFault>
    ensures { let said = all_named (map fields_view all.now) in
        Answers Source (λ v. v.items) result (unless (first_of (name_faults said)) said) }
{
    let Ok(counts) = counts_of(alloc, all) else {
        return Err(memory_fault());
    };
    let Ok(mut physicals) = Vec::with_capacity(alloc, all.len()) else {
        return Err(memory_fault());
    };
    for fields in all {
        let physical = with_disk_name(alloc, &counts, fields)?;
        let Ok(()) = physicals.push(physical) else {
            return Err(memory_fault());
        };
    }
    Ok(physicals)
}

/// How many physical volumes have each of the devices.
fn counts_of<'a>(
    alloc: Global,
    all: &[PhysicalFields<'a>],
) -> Result<BTreeMap<&'a str, usize>, AllocError>
    ensures { IfOk result (λ counts. Counts counts (devices_in (map fields_view all.now))) }
{
    let mut counts = BTreeMap::new(alloc);
    for fields in all {
        *counts.entry(fields.device)?.or_insert(0) += 1;
    }
    Ok(counts)
}

/// Whether more than one physical volume has this device.
fn is_shared(counts: &BTreeMap<&str, usize>, device: &str) -> bool
    ensures { result ≡ nat_lt 1 (unwrap_or (get_by (λ k. slice_cmp nat_cmp device.now k.now) counts.now) 0) }
{
    match counts.get(device) {
        Some(count) => 1 < *count,
        None => false,
    }
}

/// The name for a disk: the device if it is an absolute path, valid as a disk name and not shared, or else the key.
#[tactic(auto, unfolding(crate::specs::group::Group::chosen))]
fn disk_name(alloc: Global, shared: bool, key: &str, device: &str) -> Result<DiskName, CheckFault>
    ensures named { IfOk result (λ name. name ≡ chosen shared key.now device.now) }
    ensures tested { IfOk result (λ name. is_disk_name (chosen shared key.now device.now) ≡ true) }
    ensures form { result ≡ Err Form → is_disk_name (chosen shared key.now device.now) ≡ false }
{
    if device.starts_with('/') && !shared {
        match DiskName::new(alloc, device) {
            Ok(name) => return Ok(name),
            Err(CheckFault::Memory) => return Err(CheckFault::Memory),
            Err(CheckFault::Form) => {}
        }
    }
    DiskName::new(alloc, key)
}

/// Makes a physical volume from its fields, or fails if there is no valid name for its disk.
fn with_disk_name(
    alloc: Global,
    counts: &BTreeMap<&str, usize>,
    fields: &PhysicalFields<'_>,
) -> Result<Physical, LoadFault>
    ensures { (devices : List (List ℕ)) → Counts counts.now devices
        → let said = with_disk_name devices (fields_view fields.now) in
        Answers Source (λ p. p) result (unless (first_of (name_faults (said ∷ []))) said) }
{
    let shared = is_shared(counts, fields.device);
    match disk_name(alloc, shared, fields.key, fields.device) {
        Ok(disk) => Ok(Physical {
            disk,
            size: fields.size,
            start: fields.start,
            count: fields.count,
            line: fields.line,
        }),
        Err(CheckFault::Form) => Err(source_fault(LoadKind::Name, fields.line)),
        Err(CheckFault::Memory) => Err(memory_fault()),
    }
}
