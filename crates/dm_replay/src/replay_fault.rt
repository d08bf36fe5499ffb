//! Why a replay can't start, or can't answer a request.

use thiserror::Error;

/// Why there is no replay or no answer.
#[derive(Clone, Copy, Debug, PartialEq, Eq, Drop, Error)]
pub enum ReplayFault {
    /// Two claims of the stack clash.
    #[error("untidy")]
    Untidy,
    /// Memory ran out.
    #[error("memory")]
    Memory,
    /// No top device has the name in the request.
    #[error("not top")]
    NotTop,
    /// Memory ran out at an earlier request.
    #[error("stopped")]
    Stopped,
}
