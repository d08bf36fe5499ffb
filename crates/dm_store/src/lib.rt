//! Reads the contents of snapshots' exception stores from images of disks.
//!
//! `specs/Stored.antt` defines what a store with given sectors holds, and `specs/Start.antt` the state that all stores
//! of a stack hold. `read_stores` brings a mapper into that state.
#![tactic(auto)]

mod asked;
mod disk_images;
mod fault;
mod header;
mod image_list;
mod image_place;
mod images;
mod laws;
mod layout;
mod list;
mod memory_images;
mod message;
mod pair;
mod read_log;
mod row_range;
mod rows;
mod snapshot_store;
mod store;
mod stores;

pub use disk_images::DiskImages;
pub use fault::{ListFault, SectorFault, StoreFault, StoreRefusal};
pub use image_list::listed_images;
pub use images::{Images, MOST_BYTES, ReadFault, SECTOR, read_extent};
pub use laws::{is_spelled, reads_back, restarts, restarts_go_on, stored_states_fit, stores_fit};
pub use memory_images::MemoryImages;
pub use message::StoreMessage;
pub use read_log::ReadLog;
pub use snapshot_store::store_at;
pub use store::Store;
pub use stores::read_stores;
