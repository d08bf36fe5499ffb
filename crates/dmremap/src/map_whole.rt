//! All of `map`, from a source, a disk list and requests to the output and a message.
//!
//! The results depend only on the bytes that were delivered; the contract of `map_whole` is what the program promises.
//! `main` passes in real files and streams, and tests pass in streams in memory.

ghost use Rattle.dmremap.specs.Prelude.{Bool, List, None, Delivery, delivery, IsReadOn, Description, IsSound, AreLevelsEnough, BlockUnit, AreFewest, fewest, Answers, IsOne, Format, IsReadOnIf, delivery_if, StreamsLeft, moved, PartsOpen, Maps, fresh_start};
ghost use Rattle.dmremap.specs.Limits.{AreLimits};

#[cfg(test)]
mod tests;

use crate::exit::Exit;
use crate::job::Format;
use crate::load::load;
use crate::map_from::map_from;
use crate::prepared::begin;
use dm_stream::Exchange;
use dm_table::{Input, Output};
use std::alloc::Global;
use std::mem::forget;

/// Maps requests through the devices of a source: reads the source and the disk list whole, checks them, and writes the
/// pieces that each request touches. With `status`, a line for each snapshot follows if the requests end without a
/// fault. Returns the exit status.
///
/// | Status | When |
/// |---|---|
/// | 0 | all requests were answered |
/// | 1 | the source or the disk list was refused; nothing was written or flushed |
/// | 3 | a request was bad; the requests before it were answered |
/// | 4 | reading requests failed; the requests before the fault were answered |
/// | 5 | writing or flushing the output failed |
/// | 6 | memory ran out while loading; nothing was written or flushed |
///
/// No answer is held back while the program waits for a request: before each read, the output has passed on all that
/// was written to it, or has failed. At most one message is written, after the output was flushed. The message of a
/// refused load is that of its first fault; a missing disk list, if the format needs one, is refused like one that
/// can't be read. Nothing is allocated once the load is done.
///
/// Cost: near-linear in the source and the disk list; then linear in the requests, and for each request in its
/// runs of sectors on one line, times the binary digits of the line counts of the devices below it.
pub fn map_whole<S: Input, D: Input, Q: Exchange<W>, W: Output, M: Output>(
    alloc: Global,
    format: Format,
    status: bool,
    source: &mut S,
    disks: &mut Option<D>,
    requests: &mut Q,
    output: &mut W,
    messages: &mut M,
) -> u8
    // FILE, DISKS and the delivered requests determine one answer, which is written, reported and returned.
    ensures answers { Answers (Maps (PartsOpen format (delivery (S.past source.old) (S.past source.new))
        (delivery_if D.past disks.old disks.new)) fresh_start status None) (moved Q.past requests.old requests.new)
        (moved W.past output.old output.new) (moved M.past messages.old messages.new) result }
    ensures one { (f : Format) (flag : Bool) (s d q : Delivery)
        → IsOne (Maps (PartsOpen f s d) fresh_start flag None q) }
    // The exit status says how requests were read, what was written and flushed, and which message was reported.
    ensures left { StreamsLeft result (moved Q.past requests.old requests.new)
        (moved W.past output.old output.new) (moved M.past messages.old messages.new) }
    // No input is read after its end or after a fault.
    ensures source_read_on { IsReadOn (S.past source.old) (S.past source.new) }
    ensures disks_read_on { IsReadOnIf D.past disks.old disks.new }

    // The pieces of an answer are the fewest that can cover its sectors.
    ensures fewest { (units : List BlockUnit) → AreFewest units (fewest units) }
    // The bound on the levels of devices below a sector never cuts a lookup short.
    ensures levels { (stack : Description) → IsSound stack → AreLevelsEnough stack }
    ensures limits { AreLimits }
{
    match load(alloc, format, source, disks) {
        Ok(stack) => {
            let begun = begin(alloc, &stack);
            let status = map_from(&stack, begun, requests, output, messages, status);
            // The program ends when this call returns, and then the system frees all memory at once.
            forget(stack);
            status
        }
        Err(fault) => Exit::unloaded(fault).tell(messages),
    }
}
