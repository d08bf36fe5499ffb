//! Values: what a sector of a disk can hold.

ghost use Rattle.dm_replay.specs.Prelude.{first_answer, run_len, Gives, further, value_end};
ghost use Rattle.std.specs.Prelude.{◌≡◌, ◌+◌, ◌<◌, ◌^◌};

use crate::value_run::ValueRun;
use dm_stack::DiskId;

/// The value that a sector of a disk holds.
#[derive(Clone, Copy, PartialEq, Eq, Drop)]
pub(crate) enum Value {
    /// The value that a sector of a disk held at the start.
    Old { disk: DiskId, sector: u64 },
    /// Zeros.
    Zero,
    /// The value that a request wrote to a sector of its device.
    Wrote { request: u64, sector: u64 },
}

impl Value {
    /// The value of the sector `len` sectors further on, if values count up from this one.
    pub(crate) fn further(self, len: u64) -> Value
        requires { value_end self len < 2 ^ 64 }
        ensures { result ≡ further self len }
    {
        match self {
            Value::Old { disk, sector } => Value::Old {
                disk,
                sector: sector + len,
            },
            Value::Zero => Value::Zero,
            Value::Wrote { request, sector } => Value::Wrote {
                request,
                sector: sector + len,
            },
        }
    }

    /// The run of `len` sectors whose values count up from this one.
    pub(crate) fn run(self, len: u64) -> ValueRun
        ensures first { first_answer result ≡ Gives self }
        ensures len { run_len result ≡ len }
    {
        match self {
            Value::Old { disk, sector } => ValueRun::Old {
                disk,
                start: sector,
                len,
            },
            Value::Zero => ValueRun::Zero { len },
            Value::Wrote { request, sector } => ValueRun::Wrote {
                request,
                start: sector,
                len,
            },
        }
    }
}
