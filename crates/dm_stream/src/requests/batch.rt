//! Answers requests in batches, so that waits for memory overlap.
//!
//! With long tables, an answer mostly waits for memory. So all requests at the front of the held bytes are parsed
//! first and announced to the handler, and then answered one by one. The input isn't read in between, so no answer
//! comes later than without batches.
//!
//! Batches only save time: RESULTS.md has their gain as *batches and reading ahead*. They rely on `front`, and on
//! `Handler::prefetch` answering nothing. Change them only if you measure random requests on 65,536 lines, random
//! first writes, and consecutive requests, before and after.

ghost use Rattle.dm_stream.specs.Prelude.{[], length, drop, IfErr, OnOk, Some, All, AnswersFronts, AreFirst, front_requests, device_of, IsAmong};
ghost use Rattle.dm_stream.specs.declared.requests.handling.TheConstants.{MOST_REQUESTS};
ghost use Rattle.std.specs.Prelude.{◌≡◌, ◌+◌, ◌≤◌};

use crate::requests::front::{Front, front_of};
use crate::requests::handler::Handler;
use arrayvec::ArrayVec;
use dm_stack::Stack;

/// The maximum number of requests in a batch.
pub(crate) const MOST_FRONTS: usize = 16;

/// How many requests were answered, and how many bytes their lines have, newlines included.
#[derive(Drop)]
pub(crate) struct Answered {
    pub(crate) count: u64,
    pub(crate) len: usize,
}

/// Answers the requests at the front of the held bytes that `front_of` parses, as a batch; answers none if `batches`
/// is false. `done` is how many requests came before.
#[inline(always)]
pub(crate) fn answer_in_batches<H: Handler>(
    batches: bool,
    stack: &Stack,
    handler: &mut H,
    source: &mut H::Source,
    held: &[u8],
    done: u64,
) -> Result<Answered, H::Fault>
    requires ready { H.ready stack.now handler.old source.old }
    requires few { done ≤ MOST_REQUESTS }
    ensures { AnswersFronts (H.ready stack.now) (H.answered stack.now) (H.stopped stack.now) done held.now
        handler.old source.old handler.new source.new result }
{
    if batches {
        answer_batch(stack, handler, source, held, done)
    } else {
        Ok(Answered { count: 0, len: 0 })
    }
}

/// Answers a batch of the requests at the front of the held bytes. `done` is how many requests came before.
#[inline(never)]
fn answer_batch<H: Handler>(
    stack: &Stack,
    handler: &mut H,
    source: &mut H::Source,
    held: &[u8],
    done: u64,
) -> Result<Answered, H::Fault>
    requires ready { H.ready stack.now handler.old source.old }
    requires few { done ≤ MOST_REQUESTS }
    ensures { AnswersFronts (H.ready stack.now) (H.answered stack.now) (H.stopped stack.now) done held.now
        handler.old source.old handler.new source.new result }
{
    let mut fronts = ArrayVec::new();
    let len = read_fronts(stack, held, done, &mut fronts);
    handler.prefetch(stack, &*source, &fronts);
    if let Err(fault) = answer_all(stack, handler, source, &fronts) {
        return Err(fault);
    }
    Ok(Answered {
        count: fronts.len() as u64,
        len,
    })
}

/// Parses requests at the front of the held bytes until `front_of` returns None, but at most `MOST_FRONTS`. `done` is
/// how many requests came before. Returns how many bytes the lines have.
fn read_fronts<'a>(
    stack: &Stack,
    held: &'a [u8],
    done: u64,
    fronts: &mut ArrayVec<Front<'a>, MOST_FRONTS>,
) -> usize
    requires few { done ≤ MOST_REQUESTS }
    requires empty { fronts.old.items ≡ [] }
    ensures first { AreFirst (done + 1) held.now (front_requests fronts.new.items)
        (done + length fronts.new.items + 1) (drop result held.now) }
    ensures within { result ≤ length held.now }
    ensures few { done + length fronts.new.items ≤ MOST_REQUESTS }
    ensures found { All (λ front. device_of stack.now front.request.device.now ≡ Some front.device)
        fronts.new.items }
{
    let mut len = 0;
    'fronts: while fronts.len() < MOST_FRONTS {
        let Some(front) = front_of(stack, &held[len..], done + fronts.len() as u64 + 1) else {
            break;
        };
        len += front.len + 1;
        fronts.push(front);
    }
    len
}

/// Answers requests one after the other. Their devices are already looked up.
fn answer_all<H: Handler>(
    stack: &Stack,
    handler: &mut H,
    source: &mut H::Source,
    fronts: &[Front<'_>],
) -> Result<(), H::Fault>
    requires ready { H.ready stack.now handler.old source.old }
    requires found { All (λ front. device_of stack.now front.request.device.now ≡ Some front.device) fronts.now }
    ensures answered { OnOk result
        (H.answered stack.now handler.old source.old (front_requests fronts.now) handler.new source.new) }
    ensures ready { OnOk result (H.ready stack.now handler.new source.new) }
    ensures stopped { IfErr result
        (λ fault. IsAmong
        (λ first. H.stopped stack.now handler.old source.old first fault handler.new source.new)
        (front_requests fronts.now)) }
{
    'fronts: for front in fronts {
        let device = Some(front.device);
        if let Err(fault) = handler.handle(stack, &mut *source, &front.request, device) {
            return Err(fault);
        }
    }
    Ok(())
}
