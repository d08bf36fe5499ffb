//! The values of consecutive sectors, which count up from the value of the first.

ghost use Rattle.dm_replay.specs.Base.{OnTrue, OnFalse};
ghost use Rattle.dm_replay.specs.Values.{further, value_end};
ghost use Rattle.std.specs.Prelude.{◌≡◌, ◌≢◌, ◌+◌, ◌<◌, ◌≤◌, ◌^◌};

use crate::value::Value;

/// The value of the first of `len` sectors; the values of the others count up from it.
#[derive(Clone, Copy, Drop)]
pub(crate) struct RangeValues {
    pub first: Value,
    pub len: u64,
    ghost room: { value_end first len < 2 ^ 64 },
}

impl RangeValues {
    /// At most `len` sectors of this range, starting after its first `past` sectors.
    pub(crate) fn rest(&self, past: u64, len: u64) -> RangeValues
        requires some { 1 ≤ len }
        requires there { past < self.now.len }
        ensures some { 1 ≤ result.len }
        ensures most { result.len ≤ len }
        ensures within { past + result.len ≤ self.now.len }
        ensures all { self.now.len ≤ past + len → past + result.len ≡ self.now.len }
        ensures first { result.first ≡ further self.now.first past }
    {
        RangeValues {
            first: self.first.further(past),
            len: len.min(self.len - past),
        }
    }

    /// Whether the values of the range `after` continue those of this range.
    pub(crate) fn joins(&self, after: &RangeValues) -> bool
        ensures joins { OnTrue result (further self.now.first self.now.len ≡ after.now.first) }
        ensures apart { OnFalse result (further self.now.first self.now.len ≢ after.now.first) }
    {
        self.first.further(self.len) == after.first
    }

    /// A range of `len` sectors with the same first value.
    pub(crate) fn with_len(&self, len: u64) -> RangeValues
        requires { value_end self.now.first len < 2 ^ 64 }
        ensures first { result.first ≡ self.now.first }
        ensures len { result.len ≡ len }
    {
        RangeValues {
            first: self.first,
            len,
        }
    }
}
