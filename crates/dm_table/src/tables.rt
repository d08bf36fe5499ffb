//! Tables, disk lists and path lists: their types, how their texts are read, and how tables are written.

pub mod canonical_text;
pub mod concise_device;
pub mod concise_text;
pub mod disk;
pub mod disk_list;
pub mod disk_path;
pub mod line_body;
pub mod line_head;
pub mod listed;
pub mod path_list;
pub mod table;
pub mod table_row;
pub mod table_text;
