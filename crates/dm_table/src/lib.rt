//! Device-mapper tables, disk lists and requests: how their texts are read and written, and the inputs
//! and outputs for the bytes.
//!
//! A parser accepts a text exactly if the text spells a description in its grammar, and then returns that
//! description; else it returns the first fault, in order of lines, of the first check that finds any.
//! The terms are those of dmsetup(8) and of the kernel's admin-guide/device-mapper documents.
#![tactic(auto)]

mod io;
mod load;
mod requests;
mod reserved;
mod tables;
mod words;

pub use io::block::{put_array, put_bytes, put_digits};
pub use io::counted::Counted;
pub use io::device_io::{InFault, Input, OutFault, Output};
pub use io::gathered::Gathered;
pub use io::ghost_list::{GhostList, Tally};
pub use io::little_endian::{eight_at, four_at};
pub use io::sectors::{MOST_BYTES, ReadFault, SECTOR};
pub use io::short_io::{ShortIn, ShortOut};
pub use io::text::Text;
pub use io::writing::{close, write_all};
pub use load::load_fault::{LoadFault, LoadKind};
pub use load::load_message::{LoadMessage, memory_message};
pub use load::part_input::read_part;
pub use load::place::{Part, Place};
pub use requests::request::{MOST_SECTORS, Op, Request, RequestFault};
pub use requests::request_line::{first_op, front_request, parse_request};
pub use reserved::{Reserved, ReservedBox};
pub use tables::canonical_text::{write_concise, write_table};
pub use tables::concise_text::parse_concise;
pub use tables::disk::Disk;
pub use tables::disk_list::parse_disks;
pub use tables::disk_path::{DiskPath, FileExtent};
pub use tables::listed::Listed;
pub use tables::path_list::parse_paths;
pub use tables::table::{Column, Columns, DevRef, DeviceSpec, Line, StoreKind, Table, Target, Use};
pub use tables::table_text::parse_table;
pub use words::array::as_array;
pub use words::device_name::Name;
pub use words::disk_name::DiskName;
pub use words::name::CheckFault;
pub use words::number_text::{append, append_number};
pub use words::same_bytes::are_same;
