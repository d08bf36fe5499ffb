//! Fields, names and numbers: how a line is cut into fields, and how names and numbers are read and written.

pub mod array;
pub mod device_name;
pub mod disk_name;
pub mod fields;
pub mod front_digits;
pub(crate) mod marks;
pub mod name;
pub mod number;
pub mod number_text;
pub mod same_bytes;
