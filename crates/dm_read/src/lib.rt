//! Reads the bytes of devices from images of disks.
//!
//! `specs/Bytes.antt` defines the bytes of one sector of a device, given what a read maps to and what disks contain,
//! and the bytes of consecutive sectors. `write_sectors` writes these bytes to an output.
#![tactic(auto)]

mod block;
mod fault;
mod filled;
mod message;
mod part;
mod sectors;

pub use fault::{ByteFault, Stop};
pub use message::StopMessage;
pub use sectors::write_sectors;
