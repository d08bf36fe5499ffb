//! Reads the head of one disk.

ghost use Rattle.lvm_head.specs.Prelude.{[], Contents, Returns, areas_text, head_of, same_text};
ghost use Rattle.std.specs.Prelude.{◌≡◌};

use crate::area::Area;
use crate::disks::Disks;
use crate::fault::HeadFault;
use crate::label::{Label, areas_of, undivided};
use crate::text::read_area;
use std::alloc::Global;
use std::marker::Model;

/// The content of a disk's head: the id of the physical volume, and the metadata text, which may be empty.
#[derive(Debug, Drop)]
pub(crate) struct Head {
    pub id: [u8; 32],
    pub text: Vec<u8>,
}

impl Model for Head {
    ghost use Rattle.lvm_head.specs.Heads.{Said};

    ghost Value = { Said };

    ghost view = { λ head. record { id = head.id; text = head.text.items } };
}

/// The common text of two texts, each of which may be empty for no text; fails if neither is empty and they differ.
pub(crate) fn same_text(text: Vec<u8>, next: Vec<u8>) -> Result<Vec<u8>, HeadFault>
    ensures { Returns (λ text. text.items) result (same_text text.items next.items) }
{
    if text.is_empty() {
        return Ok(next);
    }
    if next.is_empty() {
        return Ok(text);
    }
    if text.as_slice() != next.as_slice() {
        return Err(HeadFault::Differ);
    }
    Ok(text)
}

/// Reads the texts of all areas of a disk, and returns their common text, or an empty text if no area contains one.
fn read_areas<D: Disks>(
    alloc: Global,
    disks: &mut D,
    disk: usize,
    areas: &[Area],
) -> Result<Vec<u8>, HeadFault>
    ensures listed { D.listed disks.new ≡ D.listed disks.old }
    ensures still { (held : Contents) → D.IsSeen disks.new held → D.IsSeen disks.old held }
    ensures is { (held : Contents) → D.IsSeen disks.new held
        → Returns (λ text. text.items) result (areas_text (held disk) [] areas.now) }
{
    let mut text = Vec::new(alloc);
    for area in areas {
        let next = match read_area(alloc, disks, disk, *area) {
            Ok(next) => next,
            Err(fault) => return Err(fault),
        };
        text = match same_text(text, next) {
            Ok(text) => text,
            Err(fault) => return Err(fault),
        };
    }
    Ok(text)
}

/// Reads the head of a disk: checks that the disk is a physical volume as a whole, then reads its label and areas.
pub(crate) fn read_head<D: Disks>(
    alloc: Global,
    disks: &mut D,
    disk: usize,
) -> Result<Head, HeadFault>
    ensures listed { D.listed disks.new ≡ D.listed disks.old }
    ensures still { (held : Contents) → D.IsSeen disks.new held → D.IsSeen disks.old held }
    ensures is { (held : Contents) → D.IsSeen disks.new held
        → Returns (λ head. head) result (head_of (held disk)) }
{
    if let Err(fault) = undivided(disks, disk) {
        return Err(fault);
    }
    let label = match Label::read(disks, disk) {
        Ok(label) => label,
        Err(fault) => return Err(fault),
    };
    let pairs = label.pairs();
    let areas = match areas_of(alloc, &pairs) {
        Ok(areas) => areas,
        Err(fault) => return Err(fault),
    };
    let text = match read_areas(alloc, disks, disk, areas) {
        Ok(text) => text,
        Err(fault) => return Err(fault),
    };
    Ok(Head {
        id: label.id(),
        text,
    })
}
