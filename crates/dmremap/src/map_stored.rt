//! All of `map` if it doesn't start with fresh snapshots: it starts from what the exception stores hold, or after
//! earlier requests, or both. Also all of `map` over images.
//!
//! The promises about a run are those of `map_whole`, defined in `specs/Whole.antt`; the promises about opening are
//! defined with each source (`Opens`).

ghost use Rattle.dmremap.specs.Prelude.{Bool, Option, Delivery, Description, Contents, Answers, IsOne, IsReadOnIf, IsUnasked, delivered_if, IsOut, StreamsLeft, moved, EarlierRead, Maps, Start};
ghost use Rattle.dmremap.specs.declared.status.TheConstants.{STATUS_MEMORY};
ghost use Rattle.std.specs.Prelude.{◌≡◌};

#[cfg(test)]
mod tests;

use crate::map_from::map_from;
use crate::opening::Opens;
use crate::prepared::after_earlier;
use dm_stream::Exchange;
use dm_table::{Input, Output};
use std::alloc::Global;
use std::mem::forget;

/// Maps requests as `map_whole` does, but over any source, from the state that the source's exception stores hold, and
/// after earlier requests, if there are any. Stores and earlier requests are read after the load and before the first
/// request, and nothing is written or flushed until then.
///
/// The statuses are those of `map_whole`. The status is also 1 if the list of paths, a disk's head or an exception
/// store is refused, or if an earlier request is bad or can't be read; then nothing was written or flushed, and no
/// request was read. Earlier requests are read only if everything else is accepted.
///
/// Cost: that of the load; near-linear in the list of paths; linear in the exceptions of the stores, which are read
/// once; for each earlier request, less than for one that is answered. No memory is allocated once the load is done and
/// the list of paths is read.
pub fn map_stored<O: Opens, B: Input, Q: Exchange<W>, W: Output, M: Output>(
    alloc: Global,
    status: bool,
    source: &mut O,
    earlier: &mut Option<B>,
    requests: &mut Q,
    output: &mut W,
    messages: &mut M,
) -> u8
    // For all contents of the images that agree with every read: the contents and the delivered inputs determine one
    // answer, and this answer is written, reported and returned. Earlier requests are read only over a stack that has a
    // state to start in, and only up to the first bad one.
    ensures answers { (held : Contents) → O.IsSeen source.new held
        → Answers (Maps (O.opens source.old source.new held) (O.starts source.old source.new held) status
        (delivered_if B.past earlier.old earlier.new)) (moved Q.past requests.old requests.new)
        (moved W.past output.old output.new) (moved M.past messages.old messages.new) result
        × EarlierRead B.past (O.opens source.old source.new held) (O.starts source.old source.new held)
        earlier.old earlier.new }
    ensures one { (old new : O) (held : Contents) (starts : Description → Start) (flag : Bool) (e : Option Delivery)
        (q : Delivery) → IsOne (Maps (O.opens old new held) starts flag e q) }
    // The exit status says how requests were read, what was written and flushed, and which message was reported.
    ensures left { StreamsLeft result (moved Q.past requests.old requests.new)
        (moved W.past output.old output.new) (moved M.past messages.old messages.new) }
    // If memory ran out, no requests were read, and nothing was written.
    ensures memory { result ≡ STATUS_MEMORY → O.IsLeft source.old source.new
        × IsUnasked B.past earlier.old earlier.new × IsOut (moved Q.past requests.old requests.new)
        (moved W.past output.old output.new) (moved M.past messages.old messages.new) }

    // No input is read after its end or after a fault.
    ensures read { O.IsRead source.old source.new }
    ensures earlier_read_on { IsReadOnIf B.past earlier.old earlier.new }
{
    match source.open(alloc) {
        Ok(stack) => {
            let begun = source.begin(alloc, &stack);
            let begun = after_earlier(&stack, begun, earlier);
            let status = map_from(&stack, begun, requests, output, messages, status);
            // The program ends when this call returns, and then the system frees all memory at once.
            forget(stack);
            status
        }
        Err(refusal) => refusal.tell(messages),
    }
}
