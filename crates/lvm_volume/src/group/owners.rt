//! Assigns disks to physical volumes by ids: the header of a disk's image has an id, and so has a physical volume's
//! section. A physical volume keeps its name if no image has its id.

ghost use Rattle.lvm_volume.specs.Prelude.{[], List, ℕ, IfOk, false, bytes_eq, codes, length, map, option_map, slice_index_or, unwrap_or, item_view, inner_sections, sections_at, first_section, all_owned, disk_fault, id_in, lay_elsewhere, letters_of, name_by, owned_group, owner_of, physicals_of, section_of, untaken, ids_view, owners_view};
ghost use Rattle.std.specs.Prelude.{◌≡◌, ◌∷◌};

use crate::fields::value::{section_if_there, sections_of, text_or_empty};
use crate::group::physical::Physical;
use crate::group::volume::lists;
use crate::volume_group::VolumeGroup;
use dm_table::{DiskName, DiskPath};
use lvm_text::Section;
use std::alloc::{AllocError, Global};

/// The ids in the headers of images, and the disks in these images, in the same order.
#[derive(Clone, Copy)]
pub struct Owners<'a> {
    pub ids: &'a [[u8; 32]],
    pub disks: &'a [DiskPath],
}

/// Why a disk can't be used for the physical volume whose id it carries.
#[derive(Clone, Copy, Debug, PartialEq, Eq, Drop)]
pub enum DiskFault {
    /// No physical volume in the text has the id in the header of the disk's image.
    Foreign,
    /// The physical volume was missing when the text was written, so the disk may be older than the text.
    Missing,
    /// The physical volume was on an md array when the text was written, and the disk isn't named like the array.
    Array,
}

/// The physical volumes in a text, with their keys.
pub(crate) fn physicals_of<'s, 'a>(
    alloc: Global,
    top: &'s Section<'a>,
) -> Result<Vec<(&'a str, &'s Section<'a>)>, AllocError>
    ensures { IfOk result (λ physicals. map item_view physicals.items ≡ physicals_of top.now) }
{
    let groups = sections_of(alloc, top)?;
    match physicals_in(&groups) {
        Some(physicals) => sections_of(alloc, physicals),
        None => Ok(Vec::new(alloc)),
    }
}

/// The section of the first group that contains its physical volumes.
fn physicals_in<'s, 'a>(groups: &[(&'a str, &'s Section<'a>)]) -> Option<&'s Section<'a>>
    ensures { sections_at (codes "physical_volumes") (first_section (map item_view groups.now)).1
        ≡ inner_sections result }
{
    match groups {
        [group, ..] => section_if_there(group.1, "physical_volumes"),
        [] => None,
    }
}

/// The ids of physical volumes as the text writes them, with dashes; empty for a physical volume that has no id.
pub(crate) fn ids_of<'a>(
    alloc: Global,
    physicals: &[(&'a str, &Section<'a>)],
) -> Result<Vec<&'a str>, AllocError>
    ensures { IfOk result (λ ids. ids_view ids.items ≡ map id_in (map item_view physicals.now)) }
{
    let mut ids = Vec::new(alloc);
    for physical in physicals {
        ids.push(text_or_empty(physical.1, "id"))?;
    }
    Ok(ids)
}

/// Whether a text is this id, if dashes in the text are left out.
fn has_letters(text: &str, id: &[u8]) -> bool
    ensures { result ≡ bytes_eq id.now (letters_of text.now) }
{
    let mut rest = id;
    for letter in text.as_bytes() {
        match after_letter(rest, *letter) {
            Some(more) => rest = more,
            None => return false,
        }
    }
    rest.len() == 0
}

/// The bytes of an id after `letter`, its first byte; the whole id if `letter` is a dash. `None` if they differ.
#[tactic(auto, unfolding(crate::specs::group::Owners::letters_of))]
fn after_letter(id: &[u8], letter: u8) -> Option<&[u8]>
    ensures { (more : List ℕ) → bytes_eq id.now (letters_of (letter ∷ more))
        ≡ unwrap_or (option_map (λ rest. bytes_eq rest.now (letters_of more)) result) false }
{
    if letter == b'-' {
        return Some(id);
    }
    match id {
        [first, rest @ ..] if *first == letter => Some(rest),
        _ => None,
    }
}

/// The section of the physical volume with this id.
fn section_of<'s, 'a>(
    physicals: &[(&'a str, &'s Section<'a>)],
    id: &[u8],
) -> Option<&'s Section<'a>>
    ensures { option_map (λ section. section.now) result ≡ section_of (map item_view physicals.now) id.now }
{
    for physical in physicals {
        if has_letters(text_or_empty(physical.1, "id"), id) {
            return Some(physical.1);
        }
    }
    None
}

/// Whether a physical volume was on an md array when the text was written, and the disk is named differently now.
fn lay_elsewhere(name: &str, physical: &Section<'_>) -> bool
    ensures { result ≡ lay_elsewhere name.now physical.now }
{
    let device = text_or_empty(physical, "device");
    device.as_bytes().starts_with(b"/dev/md") && device != name
}

/// Why the disk of this name can't be used for the physical volume whose id it carries; `None` if it can.
fn disk_fault(name: &str, physical: Option<&Section<'_>>) -> Option<DiskFault>
    ensures { result ≡ disk_fault name.now (option_map (λ section. section.now) physical.entry) }
{
    match physical {
        Some(physical) => {
            if lists(physical, "flags", "MISSING") || lists(physical, "status", "MISSING") {
                Some(DiskFault::Missing)
            } else if lay_elsewhere(name, physical) {
                Some(DiskFault::Array)
            } else {
                None
            }
        }
        None => Some(DiskFault::Foreign),
    }
}

/// The name of the disk with this number, or an empty one if there is none.
fn name_of<'a>(disks: &'a [DiskPath], disk: usize) -> &'a str
    ensures { result.now ≡ slice_index_or (map (λ path. path.disk) disks.now) disk [] }
{
    match disks.get(disk) {
        Some(path) => path.disk.as_str(),
        None => "",
    }
}

/// The number of the first disk that can't be used for the physical volume whose id it carries, and the reason.
pub(crate) fn first_untaken<'s, 'a>(
    owners: &Owners<'_>,
    physicals: &[(&'a str, &'s Section<'a>)],
) -> Option<(usize, DiskFault)>
    ensures { result ≡ untaken (map item_view physicals.now) (owners_view owners.now).names 0 owners.now.ids.now }
{
    for disk in 0..owners.ids.len() {
        let name = name_of(owners.disks, disk);
        match disk_fault(name, section_of(physicals, &owners.ids[disk])) {
            Some(fault) => return Some((disk, fault)),
            None => {}
        }
    }
    None
}

/// The number of the first image whose id is this text without dashes.
fn owner_of(owners: &[[u8; 32]], id: &str) -> Option<usize>
    ensures { result ≡ owner_of owners.now (letters_of id.now) }
{
    for disk in 0..owners.len() {
        if has_letters(id, &owners[disk]) {
            return Some(disk);
        }
    }
    None
}

/// A copy of the name of the disk whose image has this id, or of `other` if there is none.
fn name_by(
    alloc: Global,
    owners: &Owners<'_>,
    id: &str,
    other: &DiskName,
) -> Result<DiskName, AllocError>
    ensures { IfOk result (λ name. name ≡ name_by (owners_view owners.now) (letters_of id.now) other.now) }
{
    match owner_of(owners.ids, id) {
        Some(disk) => match owners.disks.get(disk) {
            Some(path) => path.disk.copy(alloc),
            None => other.copy(alloc),
        },
        None => other.copy(alloc),
    }
}

/// Copies physical volumes, each renamed to the disk whose image has the volume's id, if there is one.
fn all_owned(
    alloc: Global,
    owners: &Owners<'_>,
    ids: &[&str],
    physicals: &[Physical],
) -> Result<Vec<Physical>, AllocError>
    ensures { IfOk result (λ all. all.items ≡ all_owned (owners_view owners.now) (ids_view ids.now) physicals.now) }
{
    let mut all = Vec::new(alloc);
    for (id, physical) in ids.iter().zip(physicals) {
        all.push(Physical {
            disk: name_by(alloc, owners, id, &physical.disk)?,
            size: physical.size,
            start: physical.start,
            count: physical.count,
            line: physical.line,
        })?;
    }
    Ok(all)
}

/// A group with its physical volumes, each renamed to the disk whose image has the volume's id, if there is one.
pub(crate) fn owned_group(
    alloc: Global,
    owners: &Owners<'_>,
    ids: &[&str],
    group: VolumeGroup,
) -> Result<VolumeGroup, AllocError>
    requires { length ids.now ≡ length group.physicals }
    ensures { IfOk result (λ after. after ≡ owned_group (owners_view owners.now) (ids_view ids.now) group) }
{
    let physicals = all_owned(alloc, owners, ids, &group.physicals)?;
    let VolumeGroup {
        name,
        extent_size,
        volumes,
        ..
    } = group;
    Ok(VolumeGroup {
        name,
        extent_size,
        physicals,
        volumes,
    })
}
