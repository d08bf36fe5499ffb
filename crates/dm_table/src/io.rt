//! Inputs and outputs: their traits, their implementations over files and over memory, and functions that
//! copy bytes and texts into blocks and write them.
//!
//! This module knows nothing about tables. It is in this crate because the crate's texts need it, and
//! because every crate that reads or writes depends on this crate anyway; a separate crate would only
//! lengthen the chain of crates that are proved one after the other.

pub mod block;
pub mod counted;
pub mod device_io;
pub mod gathered;
pub mod ghost_list;
pub mod little_endian;
pub mod sectors;
pub mod short_io;
pub mod text;
pub mod writing;
