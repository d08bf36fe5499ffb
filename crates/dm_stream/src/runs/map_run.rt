//! A run: answers requests line by line, in one pass and without allocating.
//!
//! The bytes and the end that the requests delivered and the mapper's state determine what is written: see
//! `specs/runs/Outcome.antt`. `handling` reads the lines, and `request_mapper` answers them.

ghost use Rattle.dm_stream.specs.Prelude.{List, OnOk, with_looked, BlockUnit, HasTold, ending_message, Outcome, run_outcome, with_status, AreFewest, fewest, CanMap, HasMappedAll, HasRun, IsLeft, IsMapped, ending_for, write_faults, OutputPast, delivery, written_since, HasWritten, Wrote};
ghost use Rattle.dm_stream.specs.declared.requests.lines.TheConstants.{MOST_LINE_BYTES};
ghost use Rattle.dm_stream.specs.declared.requests.handling.TheConstants.{MOST_REQUESTS};
ghost use Rattle.std.specs.Prelude.{◌≡◌, ◌≢◌};

use crate::pieces::disk_texts::DiskTexts;
use crate::pieces::join::Join;
use crate::requests::exchange::Exchange;
use crate::requests::handling::handle_requests;
use crate::runs::closing::close_and_tell;
use crate::runs::ending::{Ending, NotMapped, RequestWord};
use crate::runs::message::message_of;
use crate::runs::request_mapper::RequestMapper;
use crate::runs::status_lines::write_status;
use dm_map::{Mapper, Taken};
use dm_stack::Stack;
use dm_table::{OutFault, Output};
use std::marker::PhantomData;

/// The ending of a run that stopped at a request which was not mapped.
fn ending_of(cause: NotMapped) -> Ending
    ensures { result ≡ ending_for cause }
{
    match cause {
        NotMapped::Unknown(number) => Ending::BadRequest(number, RequestWord::Unknown),
        NotMapped::Output => Ending::WriteFault,
    }
}

/// Answers the requests up to the first bad one, the end or a fault. The join exists only during this call. Doesn't
/// flush the output.
fn map_requests<'s, T: Taken, R: Exchange<W>, W: Output>(
    stack: &'s Stack,
    mapper: &mut Mapper<'s, T>,
    texts: &DiskTexts<'s>,
    requests: &mut R,
    output: &mut W,
) -> Ending
    requires mapper { CanMap stack.now mapper.old }
    requires texts { texts.now ≡ stack.now }
    ensures { HasMappedAll stack.now mapper.old mapper.new (R.past requests.old) (R.past requests.new)
        (W.past output.old) (W.past output.new) result }
{
    let mut handler = RequestMapper {
        join: Join::new(texts, output),
        prefetched: 0,
        mapper: PhantomData,
    };
    let handled = handle_requests(stack, requests, &mut handler, mapper);
    let _writer = handler.join.end();
    match handled {
        Ok(ending) => ending,
        Err(cause) => ending_of(cause),
    }
}

/// Writes what follows the answers: the status lines, if `status` is true and the run ended with `Done`. Fails if a
/// write failed, before or during this call.
fn write_rest<T: Taken, W: Output>(
    stack: &Stack,
    mapper: &mut Mapper<'_, T>,
    ending: Ending,
    status: bool,
    output: &mut W,
) -> Result<(), OutFault>
    requires { mapper.old.stack ≡ stack.now }
    ensures same { mapper.new ≡ with_looked mapper.old mapper.new.looked }
    ensures no_fault { OnOk result (ending ≢ Ending.WriteFault) }
    // `start` is any earlier past of the output, and the answers are what was written since.
    ensures wrote { (start : OutputPast) (outcome : Outcome)
        → HasWritten start (W.past output.old) (write_faults ending)
        → IsMapped outcome (written_since start (W.past output.old)) mapper.old.state ending
        → Wrote start (W.past output.new) result (with_status stack.now status outcome).output }
{
    match ending {
        Ending::WriteFault => Err(OutFault),
        Ending::Done if status => write_status(stack, mapper, output),
        _ => Ok(()),
    }
}

/// Answers requests line by line: covers the units of each with the fewest pieces, and writes a line with the
/// request's number for each piece. Ends with the first bad line, the end or a fault.
///
/// | Ending | When |
/// |---|---|
/// | `Done` | the requests ended cleanly, all were answered; with `status`, a line with each snapshot's usage follows |
/// | `BadRequest` | the line with this number is bad; the requests before it were answered |
/// | `ReadFault` | reading requests failed; those delivered before were answered |
/// | `WriteFault` | writing or flushing the output failed; a prefix of the output was written |
///
/// The mapper and the texts are of this stack, and the mapper has not failed; requests change its state. The output
/// is flushed once at the end, unless a write failed; then a message of one line is written, except at `Done`. The
/// output is not written to if there is nothing to write. No answer is held back while a read waits for requests:
/// each read requires that the output has passed on all that was written to it, or has failed.
///
/// Cost: time linear in the bytes read and written, plus the mapper's time for each request. Allocates nothing.
pub fn run<'s, T: Taken, R: Exchange<W>, W: Output, E: Output>(
    stack: &'s Stack,
    mapper: &mut Mapper<'s, T>,
    texts: &DiskTexts<'s>,
    requests: &mut R,
    output: &mut W,
    messages: &mut E,
    status: bool,
) -> Ending
    requires mapper { CanMap stack.now mapper.old }
    requires texts { texts.now ≡ stack.now }
    // The mapper can map more requests unless the output failed. Nothing is read after the first bad line, the end or
    // a fault.
    ensures left { IsLeft mapper.old mapper.new (R.past requests.old) (R.past requests.new) result }
    // The delivered requests determine what is written and, unless the output failed, how the run ends and in which
    // state it leaves the mapper. The output was flushed once. If the flush failed, all of the output was written; if
    // a write failed, only a proper prefix.
    ensures ran { HasRun (W.past output.old) (W.past output.new)
        (run_outcome stack.now status mapper.old.state (delivery (R.past requests.old) (R.past requests.new)))
        mapper.new.state result }
    // The message for the ending was written or, if its stream failed, a prefix of the message.
    ensures told { HasTold (ending_message result) (E.past messages.old) (E.past messages.new) }
    // The pieces of an answer are the fewest that can cover its units.
    ensures fewest { (units : List BlockUnit) → AreFewest units (fewest units) }
    // The values of the two limits that `specs/requests` uses.
    ensures limits { (MOST_LINE_BYTES ≡ 4096) × (MOST_REQUESTS ≡ 1000000000000) }
{
    let ending = map_requests(stack, mapper, texts, requests, output);
    let written = write_rest(stack, mapper, ending, status, output);
    match close_and_tell(written, message_of(ending).as_slice(), output, messages) {
        Ok(()) => ending,
        Err(OutFault) => Ending::WriteFault,
    }
}
