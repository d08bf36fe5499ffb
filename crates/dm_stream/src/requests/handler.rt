//! Handlers, which answer requests.
//!
//! Lines are read, bad ones refused and devices looked up in one place for all handlers. A handler defines what a
//! request does and why to stop at one. Its relations are about lists of requests, so the code that reads lines needs
//! to know nothing about answers.

ghost use Rattle.dm_stream.specs.Prelude.{List, [], length, OnOk, IfErr, IfOk, InputPast, after_read, Description, device_of, NumberedRequest, numbered};
ghost use Rattle.std.specs.Prelude.{◌≡◌, ◌≤◌, ◌∷◌, ◌++◌};

use crate::requests::front::Front;
use dm_stack::{DeviceId, Stack};
use dm_table::{InFault, Input, Request};

/// Answers requests to the devices of a stack, one after the other.
pub trait Handler {
    /// What requests are answered from, such as a mapper. Answering changes it.
    type Source;

    /// Why a request was not answered completely.
    type Fault: Drop;

    /// The handler is ready to answer a request to a device of the stack.
    ghost ready: { Description → Self → Self.Source → Type 0 };

    /// Between an old and a new state, exactly the requests of the list were answered, in this order.
    ghost answered: { Description → Self → Self.Source → List NumberedRequest → Self → Self.Source → Type 0 };

    /// Between an old and a new state, the requests were answered up to the last, at which the handler stopped.
    ghost stopped: { Description → Self → Self.Source → List NumberedRequest → Self.Fault → Self → Self.Source → Type 0 };

    /// Answers a request, or stops at it. `device` is the one the request names; None if no device has that name.
    fn handle(
        &mut self,
        stack: &Stack,
        source: &mut Self::Source,
        request: &Request<'_>,
        device: Option<DeviceId>,
    ) -> Result<(), Self::Fault>
        requires ready { ready stack.now self.old source.old }
        requires found { device_of stack.now request.now.device.now ≡ device }
        ensures answered { OnOk result
            (answered stack.now self.old source.old (numbered request.now ∷ []) self.new source.new) }
        ensures ready { OnOk result (ready stack.now self.new source.new) }
        ensures stopped { IfErr result
            (λ fault. stopped stack.now self.old source.old (numbered request.now ∷ []) fault self.new source.new) };

    /// Whether requests are read in batches, which pays if answers wait for memory: `prefetch` is called for a batch
    /// before its first request is answered. Called once in a run.
    fn batches(&self, _stack: &Stack) -> bool {
        false
    }

    /// Announces requests that will be answered soon, so that the handler can start reading what their answers need,
    /// and waits for memory overlap. Answers nothing.
    fn prefetch(&mut self, stack: &Stack, source: &Self::Source, fronts: &[Front<'_>])
        ensures answered { answered stack.now self.old source.now [] self.new source.now }
        ensures ready { ready stack.now self.old source.now → ready stack.now self.new source.now }
    {}

    /// If nothing changes, the empty list of requests was answered.
    ghost answered_none: { (stack : Description) (h : Self) (s : Self.Source) → answered stack h s [] h s };

    /// Requests that were answered in two consecutive parts were answered as a whole.
    ghost answered_then_answered: { (stack : Description) (a b c : Self) (s t u : Self.Source) (us vs : List NumberedRequest)
        → answered stack a s us b t → answered stack b t vs c u → answered stack a s (us ++ vs) c u };

    /// If the first requests were answered, and the handler stopped at the last of the others, it stopped at the last
    /// of all.
    ghost answered_then_stopped: { (stack : Description) (a b c : Self) (s t u : Self.Source) (us vs : List NumberedRequest)
        (fault : Self.Fault)
        → answered stack a s us b t → stopped stack b t vs fault c u → stopped stack a s (us ++ vs) fault c u };
}

/// Reads the bytes of requests from `Q`. A read may block, so all answers must be passed on first.
pub trait ReadsFrom<Q> {
    /// What the requests have delivered so far, as for any input.
    ghost asked: { Q → InputPast };

    /// All answers were passed on, or passing them on failed.
    ghost is_out: { Self → Type 0 };

    /// Reads like an input. All answers must have been passed on.
    fn read(&self, requests: &mut Q, buffer: &mut [u8]) -> Result<usize, InFault>
        requires { is_out self.now }
        ensures within { IfOk result (λ n. n ≤ length buffer.new) }
        ensures past { asked requests.new ≡ after_read (asked requests.old) result buffer.new };
}

/// A handler whose requests are read from `Q`.
pub trait HandlesFrom<Q>: Handler + ReadsFrom<Q> {
    /// Called when no whole line is held, so that the next read may block. Passes on the answers gathered so far;
    /// answers nothing.
    fn before_read(&mut self)
        ensures answered { (stack : Description) (source : Self.Source)
            → Self.answered stack self.old source [] self.new source }
        ensures ready { (stack : Description) (source : Self.Source)
            → Self.ready stack self.old source → Self.ready stack self.new source }
        ensures out { Self.is_out self.new };
}

/// Takes the place of a handler if nobody answers the lines of an input, so that the input can be read at any time.
pub(crate) struct Unanswered;

impl<R: Input> ReadsFrom<R> for Unanswered {
    ghost asked = { R.past };

    ghost is_out = { λ nobody. Unit {0} };

    fn read(&self, input: &mut R, buffer: &mut [u8]) -> Result<usize, InFault> {
        input.read(buffer)
    }
}
