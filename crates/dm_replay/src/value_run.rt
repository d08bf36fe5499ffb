//! Runs: the answers of consecutive sectors, as one value.

ghost use Rattle.dm_replay.specs.Prelude.{OnTrue, OnFalse, Joins, first_answer, run_len};
ghost use Rattle.std.specs.Prelude.{◌≡◌, ◌+◌, ◌==◌};

use dm_stack::DiskId;

/// The answers of `len` consecutive sectors of a request. Starts and lengths are in sectors of 512 bytes.
#[derive(Clone, Copy, Debug, PartialEq, Eq, Drop)]
pub enum ValueRun {
    /// The values that the sectors of a disk from `start` on held when the replay started.
    Old { disk: DiskId, start: u64, len: u64 },
    /// The values that a request wrote to the sectors of its device from `start` on.
    Wrote { request: u64, start: u64, len: u64 },
    /// Zeros that were read, or writes that were discarded.
    Zero { len: u64 },
    /// No values, because the sectors failed.
    Error { len: u64 },
}

impl ValueRun {
    /// The length of the run in sectors.
    pub(crate) fn len(&self) -> u64
        ensures { result ≡ run_len self.now }
    {
        match *self {
            ValueRun::Old { len, .. }
            | ValueRun::Wrote { len, .. }
            | ValueRun::Zero { len }
            | ValueRun::Error { len } => len,
        }
    }

    /// The run with the same first answer and the length `len`.
    pub(crate) fn with_len(self, len: u64) -> ValueRun
        ensures first { first_answer result ≡ first_answer self }
        ensures len { run_len result ≡ len }
    {
        match self {
            ValueRun::Old { disk, start, .. } => ValueRun::Old { disk, start, len },
            ValueRun::Wrote { request, start, .. } => ValueRun::Wrote {
                request,
                start,
                len,
            },
            ValueRun::Zero { .. } => ValueRun::Zero { len },
            ValueRun::Error { .. } => ValueRun::Error { len },
        }
    }

    /// Whether the run `after` continues this one.
    pub(crate) fn joins(&self, after: &ValueRun) -> bool
        ensures joins { OnTrue result (Joins self.now after.now) }
        ensures apart { OnFalse result (Joins self.now after.now → ⊥) }
    {
        match *self {
            ValueRun::Old { disk, start, len } => {
                matches!(*after, ValueRun::Old { disk: other, start: next, .. } if other == disk && follows(start, len, next))
            }
            ValueRun::Wrote {
                request,
                start,
                len,
            } => {
                matches!(*after, ValueRun::Wrote { request: other, start: next, .. } if other == request && follows(start, len, next))
            }
            ValueRun::Zero { .. } => matches!(*after, ValueRun::Zero { .. }),
            ValueRun::Error { .. } => matches!(*after, ValueRun::Error { .. }),
        }
    }
}

/// Whether `next` is the sector right after the `len` sectors that begin at `start`.
fn follows(start: u64, len: u64, next: u64) -> bool
    ensures { result ≡ (start + len == next) }
{
    start <= next && next - start == len
}
