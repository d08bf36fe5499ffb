//! How far a block has been filled with sectors.

use crate::fault::ByteFault;

/// How many sectors were read into a block and, if not all, why the next one has no bytes.
#[derive(Clone, Copy, Debug, Drop)]
pub(crate) struct Filled {
    pub(crate) count: u64,
    pub(crate) fault: Option<ByteFault>,
}
