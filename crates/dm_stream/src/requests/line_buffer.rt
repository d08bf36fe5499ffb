//! The buffer that holds lines: finding the end of a line, making room, and reading. These functions work on a slice
//! and two offsets, so `lines` deals only with the held bytes as a value. Held bytes are moved only if there is too
//! little room behind them; in a buffer full of short lines they stay where they are.
ghost use Rattle.dm_stream.specs.Prelude.{[], length, take, drop, slice_range, IfOk, MatchOption, given, parts_at, HasRead, code};
ghost use Rattle.std.specs.Prelude.{◌≡◌, ◌+◌, ◌-◌, ◌<◌, ◌≤◌, ◌∷◌};

use crate::requests::handler::ReadsFrom;
use dm_table::InFault;
use memchr::memchr;

/// The length of the first line, or None if no newline is held. The first `searched` bytes have no newline, and are
/// not searched again.
pub(crate) fn line_len(held: &[u8], searched: usize) -> Option<usize>
    requires within { searched ≤ length held.now }
    requires clear { parts_at (code "\n") (take searched held.now) ≡ take searched held.now ∷ [] }
    ensures { MatchOption result
        (parts_at (code "\n") held.now ≡ held.now ∷ [])
        (λ n. (n < length held.now)
        × (parts_at (code "\n") held.now ≡ take n held.now ∷ parts_at (code "\n") (drop (n + 1) held.now))) }
{
    let n = memchr(b'\n', &held[searched..])?;
    Some(searched + n)
}

/// Makes room for more than `room` bytes behind the bytes from `start` to `end`, and returns the new offset of those
/// bytes. They aren't moved if there is already enough room.
pub(crate) fn make_room(buffer: &mut [u8], start: usize, end: usize, room: usize) -> usize
    requires ordered { start ≤ end }
    requires within { end ≤ length buffer.old }
    requires short { end - start + room < length buffer.old }
    ensures kept { slice_range buffer.new result (result + (end - start)) ≡ slice_range buffer.old start end }
    ensures room { result + (end - start) + room < length buffer.new }
{
    if start < end && room < buffer.len() - end {
        return start;
    }
    buffer.copy_within(start..end, 0);
    0
}

/// Reads once, into the buffer behind its first `end` bytes, and returns how many bytes were read.
pub(crate) fn read_after<Q, H: ReadsFrom<Q>>(
    buffer: &mut [u8],
    end: usize,
    requests: &mut Q,
    handler: &H,
) -> Result<usize, InFault>
    requires room { end < length buffer.old }
    requires out { H.is_out handler.now }
    ensures within { IfOk result (λ n. end + n ≤ length buffer.new) }
    ensures kept { take end buffer.new ≡ take end buffer.old }
    ensures read { HasRead (H.asked requests.old) (H.asked requests.new) result
        (given result (drop end buffer.new)) }
{
    handler.read(requests, &mut buffer[end..])
}
