//! From the bytes of an input to requests, line by line, which are handed to a handler.
//!
//! Only the bytes and the end that the input delivered determine which requests are handed on. A new check of a line
//! belongs in `request_of`, in the order of `specs/requests/Requests.antt`.

ghost use Rattle.dm_stream.specs.Prelude.{[], length, take, drop, Ok, Some, IfOk, IfErr, IfSome, OnErr, OnOk, Description, delivery, IsReadOn, MetNothing, line_parts, HasMet, IsAmong, Requests, after_requests, is_bad, line_requests, numbered, requests_of, word_for};
ghost use Rattle.std.specs.Prelude.{◌≡◌, ◌≢◌, ◌+◌, ◌<◌, ◌≤◌, ◌∷◌};

use crate::requests::batch::{Answered, answer_in_batches};
use crate::requests::front::{Front, front_of};
use crate::requests::handler::{Handler, HandlesFrom};
use crate::requests::lines::{Lines, Next};
use crate::runs::ending::{Ending, RequestWord};
use dm_stack::Stack;
use dm_table::{Request, RequestFault, parse_request};

/// The maximum number of requests in a run.
pub const MOST_REQUESTS: u64 = 1_000_000_000_000;

/// The word that reports why a line isn't a request.
fn word_of(fault: RequestFault) -> RequestWord
    ensures { result ≡ word_for fault }
{
    match fault {
        RequestFault::Form => RequestWord::Form,
        RequestFault::Number => RequestWord::Number,
        RequestFault::Length => RequestWord::Length,
    }
}

/// The request of line `number`, or the word for what is wrong with the line.
fn request_of(line: &[u8], number: u64) -> Result<Request<'_>, RequestWord>
    ensures good { IfOk result
        (λ request. (rest : Requests) → line_requests number line.now rest
        ≡ after_requests (numbered request ∷ []) rest) }
    ensures bad { IfErr result
        (λ word. (rest : Requests) → line_requests number line.now rest ≡ is_bad number word) }
    ensures few { OnOk result (number ≤ MOST_REQUESTS) }
{
    if number > MOST_REQUESTS {
        return Err(RequestWord::Many);
    }
    match parse_request(line, number) {
        Ok(request) => Ok(request),
        Err(fault) => Err(word_of(fault)),
    }
}

/// Tells the handler that the next read may block, unless a newline is already buffered.
fn before_read<Q, H: HandlesFrom<Q>>(handler: &mut H, lines: &Lines)
    ensures answered { (stack : Description) (source : H.Source)
        → H.answered stack handler.old source [] handler.new source }
    ensures ready { (stack : Description) (source : H.Source)
        → H.ready stack handler.old source → H.ready stack handler.new source }
    ensures out { line_parts lines.now ≡ lines.now ∷ [] → H.is_out handler.new }
{
    if !lines.has_newline() {
        handler.before_read();
    }
}

/// Looks up the device of a request, and hands the request and the device to the handler.
#[inline(never)]
fn handle_named<H: Handler>(
    stack: &Stack,
    handler: &mut H,
    source: &mut H::Source,
    request: &Request<'_>,
) -> Result<(), H::Fault>
    requires { H.ready stack.now handler.old source.old }
    ensures answered { OnOk result
        (H.answered stack.now handler.old source.old (numbered request.now ∷ []) handler.new source.new) }
    ensures ready { OnOk result (H.ready stack.now handler.new source.new) }
    ensures stopped { IfErr result
        (λ fault. H.stopped stack.now handler.old source.old (numbered request.now ∷ []) fault handler.new source.new) }
{
    let device = stack.device(request.device);
    handler.handle(stack, source, request, device)
}

/// Hands the requests of an input to the handler, one after the other, up to the first bad line, the end or a fault.
///
/// `Ok` returns how the requests ended; all requests before that were answered. Cost: time linear in the bytes read,
/// plus the handler's time for each request. Allocates nothing.
///
/// # Errors
///
/// The fault with which the handler stopped at a request. Nothing is read after that.
#[inline(never)]
pub fn handle_requests<Q, H: HandlesFrom<Q>>(
    stack: &Stack,
    requests: &mut Q,
    handler: &mut H,
    source: &mut H::Source,
) -> Result<Ending, H::Fault>
    requires { H.ready stack.now handler.old source.old }
    ensures moved { IsReadOn (H.asked requests.old) (H.asked requests.new) }
    // If reading met neither a fault nor the end, nothing was read after the bad line.
    ensures met { IfOk result (λ ending. HasMet ending (H.asked requests.old) (H.asked requests.new)) }
    // All delivered requests were answered, and `ending` is how these requests end.
    ensures answered { IfOk result
        (λ ending. H.answered stack.now handler.old source.old
        (requests_of (delivery (H.asked requests.old) (H.asked requests.new))).all handler.new source.new) }
    ensures ending { IfOk result
        (λ ending. (requests_of (delivery (H.asked requests.old) (H.asked requests.new))).ending
        ≡ Some ending) }
    ensures no_write_fault { IfOk result (λ ending. ending ≢ Ending.WriteFault) }
    ensures ready { OnOk result (H.ready stack.now handler.new source.new) }
    // The handler stopped at one of the delivered requests.
    ensures stopped { IfErr result
        (λ fault. IsAmong (λ first. H.stopped stack.now handler.old source.old first fault handler.new source.new)
        (requests_of (delivery (H.asked requests.old) (H.asked requests.new))).all) }
    ensures unread { OnErr result (MetNothing (H.asked requests.old) (H.asked requests.new)) }
{
    let batches = handler.batches(stack);
    let mut lines = Lines::new();
    let mut number = 0;
    'lines: loop {
        let held = lines.held();
        let batch = match answer_in_batches(batches, stack, handler, &mut *source, held, number) {
            Ok(batch) => batch,
            Err(fault) => return Err(fault),
        };
        let Answered { count, len } = batch;
        lines.skip(len);
        number += count;
        if count > 0 {
            continue;
        }
        number += 1;
        if let Some(front) = front_of(stack, lines.held(), number) {
            let Front {
                request,
                device,
                len,
            } = front;
            if let Err(fault) = handler.handle(stack, &mut *source, &request, Some(device)) {
                return Err(fault);
            }
            lines.skip(len + 1);
            continue;
        }
        before_read::<Q, H>(handler, &lines);
        match lines.next_for(requests, handler) {
            Next::Line(line) => match request_of(line, number) {
                Ok(request) => {
                    if let Err(fault) = handle_named(stack, handler, &mut *source, &request) {
                        return Err(fault);
                    }
                }
                Err(word) => return Ok(Ending::BadRequest(number, word)),
            },
            Next::End => return Ok(Ending::Done),
            Next::Unended => return Ok(Ending::BadRequest(number, RequestWord::Unended)),
            Next::Long => return Ok(Ending::BadRequest(number, RequestWord::Long)),
            Next::ReadFault => return Ok(Ending::ReadFault),
        }
    }
}
