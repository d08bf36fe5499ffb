//! A run of taken chunks.

/// A range of consecutive chunks, at least one, that were taken one after the other.
#[derive(Clone, Copy)]
pub(crate) struct Run {
    /// The first chunk of the run.
    pub(crate) first: u64,
    /// The number of the run's first chunk, in the order of taking.
    pub(crate) number: usize,
    /// The number of chunks in the run.
    pub(crate) len: u64,
}
