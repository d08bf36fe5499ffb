//! Parses requests at the front of the held bytes, without copying them.
//!
//! This module only saves time, because `handling` can parse any line: RESULTS.md has the gain as *requests read
//! where they stand*. At least `FRONT_ROOM` bytes must be held, and lines that aren't in the usual form are left to
//! `handling`. Change the module only if you measure small requests before and after.

ghost use Rattle.dm_stream.specs.Prelude.{[], length, take, drop, IfSome, Some, line_parts, device_of, Requests, after_requests, line_requests, numbered};
ghost use Rattle.dm_stream.specs.declared.requests.lines.TheConstants.{MOST_LINE_BYTES};
ghost use Rattle.dm_stream.specs.declared.requests.handling.TheConstants.{MOST_REQUESTS};
ghost use Rattle.std.specs.Prelude.{◌≡◌, ◌+◌, ◌<◌, ◌≤◌, ◌∷◌};

use crate::requests::handling::MOST_REQUESTS;
use dm_stack::{DeviceId, Stack};
use dm_table::{Op, Request, first_op, front_request};

/// With fewer held bytes than this, `front_of` parses nothing.
const FRONT_ROOM: usize = 64;

/// A request at the front of the held bytes, its device, and the length of its line without the newline.
#[derive(Drop)]
pub struct Front<'a> {
    pub request: Request<'a>,
    pub device: DeviceId,
    pub(crate) len: usize,
}

/// The value in an unused place of a batch.
impl Default for Front<'_> {
    fn default() -> Self {
        Front {
            request: Request {
                number: 0,
                op: Op::Read,
                device: "",
                start: 0,
                len: 1,
            },
            device: DeviceId::default(),
            len: 0,
        }
    }
}

/// The request of line `number` at the front of the held bytes, with its device. None if the line isn't in the usual
/// form, or too near the end of the held bytes.
#[inline(always)]
pub(crate) fn front_of<'a>(stack: &Stack, held: &'a [u8], number: u64) -> Option<Front<'a>>
    ensures good { IfSome result
        (λ front. (rest : Requests) → line_requests number (take front.len held.now) rest
        ≡ after_requests (numbered front.request ∷ []) rest) }
    ensures line { IfSome result
        (λ front. line_parts held.now ≡ take front.len held.now ∷ line_parts (drop (front.len + 1) held.now)) }
    ensures within { IfSome result (λ front. front.len < length held.now) }
    ensures short { IfSome result (λ front. front.len ≤ MOST_LINE_BYTES) }
    ensures few { IfSome result (λ front. number ≤ MOST_REQUESTS) }
    ensures device { IfSome result (λ front. device_of stack.now front.request.device.now ≡ Some front.device) }
{
    if number > MOST_REQUESTS || held.len() < FRONT_ROOM {
        return None;
    }
    let (op, rest) = first_op(held)?;
    let (device, name) = stack.device_at_front(rest)?;
    let (request, len) = front_request(held, op, &rest[..name], &rest[name + 1..], number)?;
    Some(Front {
        request,
        device,
        len,
    })
}
