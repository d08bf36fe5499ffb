//! Requests that a replay has accepted.

ghost use Rattle.dm_replay.specs.Prelude.{asked_of, kept_request};
ghost use Rattle.std.specs.Prelude.{◌≡◌};

use dm_stack::DeviceId;
use dm_table::{Op, Request};

/// A request to a device, which was either played to its end or halted after a number of units.
#[derive(Clone, Copy, Drop)]
pub(crate) struct AskedRequest {
    pub number: u64,
    pub op: Op,
    pub device: DeviceId,
    pub start: u64,
    pub len: u64,
    pub halted_after: Option<u64>,
}

impl AskedRequest {
    /// A request with its device's id. If it was halted, `halted_after` is the number of its units that were played.
    pub(crate) fn new(
        request: &Request<'_>,
        device: DeviceId,
        halted_after: Option<u64>,
    ) -> AskedRequest
        ensures { asked_of result ≡ kept_request request.now device halted_after }
    {
        AskedRequest {
            number: request.number,
            op: request.op,
            device,
            start: request.start,
            len: request.len,
            halted_after,
        }
    }
}
