//! Positions in a striped line: the column of a sector, and where in the column its chunk is.
//!
//! A sector's position takes divisions, but the next chunk's position is computed from it without any, so a run
//! of chunks costs only the divisions of the first. Only this file knows which chunk is in which column.

ghost use Rattle.dm_stack.specs.Prelude.{ℕ, IsStripePosition};
ghost use Rattle.std.specs.Prelude.{◌≡◌, ◌+◌, ◌-◌, ◌<◌, ◌^◌};

use crate::lines::divisor::Divisor;

/// The position of a sector of a striped line: its column, where its chunk starts in that column, and how many
/// sectors of the chunk come before the sector.
#[derive(Clone, Copy, Drop)]
pub(crate) struct StripePosition {
    pub(crate) column: usize,
    pub(crate) chunk_start: u64,
    pub(crate) past: u64,
}

impl StripePosition {
    /// The sector's distance from the start of the line's share of the column.
    #[inline(always)]
    pub(crate) fn in_column(&self) -> u64
        requires { self.now.chunk_start + self.now.past < 2 ^ 64 }
        ensures { result ≡ self.now.chunk_start + self.now.past }
    {
        self.chunk_start + self.past
    }
}

/// The position of the sector at this distance into the striped line.
pub(crate) fn position_at(chunk_size: &Divisor, count: &Divisor, distance: u64) -> StripePosition
    requires chunk { 0 < chunk_size.now }
    requires count { 0 < count.now }
    ensures { IsStripePosition chunk_size.now count.now distance result }
{
    let (number, past) = chunk_size.divide(distance);
    let (row, column) = count.divide(number);
    StripePosition {
        column: column as usize,
        chunk_start: row * chunk_size.value(),
        past,
    }
}

/// The position of the first sector of the next chunk, which is in the next column or, after the last column, a
/// chunk further in the first column.
pub(crate) fn next_stripe_chunk(
    chunk_size: u64,
    count: usize,
    position: StripePosition,
) -> StripePosition
    requires chunk { 0 < chunk_size }
    requires column { position.column < count }
    requires small { position.chunk_start + chunk_size < 2 ^ 64 }
    ensures { (distance : ℕ) → IsStripePosition chunk_size count distance position
        → IsStripePosition chunk_size count (distance + (chunk_size - position.past)) result }
{
    let next = position.column + 1;
    if next < count {
        return StripePosition {
            column: next,
            chunk_start: position.chunk_start,
            past: 0,
        };
    }
    StripePosition {
        column: 0,
        chunk_start: position.chunk_start + chunk_size,
        past: 0,
    }
}
