//! Checked stacks of devices, and look-up of the line that holds a sector.
//!
//! A `Stack` exists only if no check of a load finds a fault, so callers never check soundness again. Lines are
//! found only by a `Looker`, which counts its searches.
#![tactic(auto)]

mod checks;
mod claims;
mod id;
mod lines;
mod looker;
mod names;
mod report;
mod stack;

pub use checks::graph::MOST_DEPTH;
pub use checks::paths::check_paths;
pub use claims::clash::Clash;
pub use id::{DeviceId, DiskId, Lower};
pub use lines::chunk_size::ChunkSize;
pub use lines::leg::{Beneath, Leg};
pub use lines::legs::Legs;
pub use lines::resolved_line::{
    Found, ResolvedLine, ResolvedOrigin, ResolvedOver, ResolvedSnapshot, ResolvedTarget,
};
pub use lines::store_layout::{allocated, metadata, place, place_count, places_are_apart};
pub use looker::Looker;
pub use report::check_report;
pub use stack::Stack;
