//! Walks down a stack: what a read or a write of sectors does on each device that it passes.

pub(crate) mod chunk;
pub(crate) mod home;
pub(crate) mod homes;
pub(crate) mod levels;
pub(crate) mod range;
pub(crate) mod serving;
pub(crate) mod step;
pub(crate) mod stretch;
pub(crate) mod take_chunk;
#[cfg(test)]
mod tests;
pub(crate) mod write_chunk;
