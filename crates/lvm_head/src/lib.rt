//! Reads the head of an LVM2 physical volume: the label, the header, and the metadata text of the volume group. Disks
//! are read in sectors.
//!
//! `specs/Heads.antt` defines the content of a disk's head, from the disk's sectors, and of the heads of a volume
//! group; `read_heads` reads the heads of a volume group.
#![tactic(auto)]

mod area;
mod disks;
mod fault;
mod head;
mod heads;
mod label;
mod laws;
mod message;
mod sums;
#[cfg(test)]
mod tests;
mod text;

pub use disks::{Disks, MOST_BYTES, ReadFault, SECTOR, read_sector};
pub use fault::{HeadFault, HeadRefusal};
pub use heads::{Heads, read_heads};
pub use laws::heads_read_back;
pub use message::HeadMessage;
pub use sums::sum_of;
