//! Names of devices and disks: an index of names, and finding the name at the front of a text.

pub mod indexed;
pub mod name_index;
pub mod name_key;
