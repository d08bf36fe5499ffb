//! Writes that a replay keeps so that it can map them again.

ghost use Rattle.dm_replay.specs.Prelude.{OnOk, with_request};
ghost use Rattle.std.specs.Prelude.{◌≡◌};

use dm_stack::DeviceId;
use dm_table::Op;
use std::alloc::AllocError;

/// The part of a write that determines the state after it: the sectors from `start` on whose units were all played.
/// There are none if the write passes the end of its device.
#[derive(Clone, Copy, Drop)]
pub(crate) struct KeptWrite {
    pub device: DeviceId,
    pub start: u64,
    pub whole: u64,
}

/// Keeps the whole sectors of a request if it is a write. Reads aren't kept, because they change no state.
///
/// # Errors
///
/// `AllocError` when out of memory.
pub(crate) fn keep(writes: &mut Vec<KeptWrite>, op: Op, write: KeptWrite) -> Result<(), AllocError>
    ensures { OnOk result (writes.new.items ≡ with_request op write writes.old.items) }
{
    match op {
        Op::Read => Ok(()),
        Op::Write => {
            writes.push(write)?;
            Ok(())
        }
    }
}
