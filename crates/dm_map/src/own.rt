//! What disks hold after requests: laws that each top device is like a disk of its own, and laws of read errors.

pub(crate) mod cuts;
pub(crate) mod errors;
pub(crate) mod lists;
pub(crate) mod play;
pub(crate) mod requests;
pub(crate) mod tops;
