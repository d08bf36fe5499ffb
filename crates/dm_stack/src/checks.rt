//! The checks of a load, with a module for each kind; `load` runs the checks in order.

pub mod depth;
pub mod faults;
pub mod graph;
pub mod layout;
pub mod limits;
pub mod lines;
pub mod links;
pub mod load;
pub mod names;
pub mod paths;
pub mod ranges;
pub mod snapshots;
pub mod store_limit;
pub mod stores;
pub mod stripes;
