//! Finishing an output: it is closed first, and only then a message is written.
//!
//! Both `run` and every other command that isn't refused finish their output with this function.

ghost use Rattle.dm_stream.specs.Prelude.{ℕ, List, IsErr, OnErr, OnOk, OutputPast, IsClosedAfter, Wrote, HasTold, told_at_close};
ghost use Rattle.std.specs.Prelude.{◌≡◌, ◌+◌};

use crate::runs::ending::Ending;
use crate::runs::message::{message_of, tell};
use dm_table::{OutFault, Output, close};

/// Closes an output: flushes it, unless a write to it failed. Then writes a message: `message` or, if a write or the
/// flush failed, the message for a failed output.
///
/// # Errors
///
/// A write to the output failed earlier, or the flush failed.
pub fn close_and_tell<W: Output, M: Output>(
    written: Result<(), OutFault>,
    message: &[u8],
    output: &mut W,
    messages: &mut M,
) -> Result<(), OutFault>
    // `start` is any earlier past of the output, and `text` is what was written since.
    ensures closed { (start : OutputPast) (text : List ℕ) → Wrote start (W.past output.old) written text
        → IsClosedAfter start (W.past output.new) (IsErr result) text }
    // If a write failed, the output is neither written to nor flushed again.
    ensures untouched { OnErr written (IsErr result × (output.new ≡ output.old)) }
    ensures flushed { OnOk written ((W.past output.new).flushes ≡ (W.past output.old).flushes + 1) }
    ensures bytes { (W.past output.new).written ≡ (W.past output.old).written }
    ensures told { HasTold (told_at_close result message.now) (M.past messages.old) (M.past messages.new) }
{
    let closed = close(written, output);
    match closed {
        Ok(()) => tell(messages, message),
        Err(OutFault) => tell(messages, message_of(Ending::WriteFault).as_slice()),
    }
    closed
}
