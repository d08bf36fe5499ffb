//! LVM2 volume groups as device-mapper tables, and the device names of their logical volumes.
//! From the tree of a group's metadata text, this crate makes the devices and disks of the group, or finds the first
//! fault. It also builds and splits the names under which the device mapper knows the volumes of a group. The rules are
//! those of lvm(8), dmsetup(8) and of metadata as vgcfgbackup(8) writes it.
//!
//! `metadata` makes tables from the bytes of a text. A `volume_group` is what a text describes (`group`) once its
//! fields have been checked (`fields`) and no other check has found a fault (`checks`); `tables` makes devices and
//! disks from it.
#![tactic(auto)]

mod checks;
mod fault;
mod fields;
mod group;
#[cfg(test)]
mod group_tests;
mod metadata;
mod names;
mod owned_metadata;
mod refused_text;
mod tables;
#[cfg(test)]
mod tests;
mod volume_group;

pub use fault::NameFault;
pub use group::owners::{DiskFault, Owners};
pub use metadata::parse_metadata;
pub use names::{Parts, build_name, spaced_parts, split_name, undouble};
pub use owned_metadata::{OwnedFault, parse_owned};
pub use refused_text::text_fault;
pub use volume_group::VolumeGroup;
