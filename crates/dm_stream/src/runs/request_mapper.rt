//! Maps requests to an output: the handler of a run.
//!
//! A mapper passes the units of a request to a join, which writes them. `specs/runs/Outcome.antt` defines what is
//! written, and `specs/runs/Mapped.antt` what one request adds to that.

ghost use Rattle.dm_stream.specs.Prelude.{None, false, length, OnOk, HasWrittenTo, IsSameReference, Wrote, written_to_none, written_to_more, refl, ◌∙◌, IsReady, HasAnswered, HasStopped, failed_writes, request_answer, step_of, numbered};
ghost use Rattle.dm_stream.specs.laws.Mapped.{answered_none, answered_more, stopped_more};
ghost use Rattle.std.specs.Prelude.{◌≡◌, ◌<◌};

use crate::pieces::disk_range::DiskRange;
use crate::pieces::join::Join;
use crate::requests::batch::MOST_FRONTS;
use crate::requests::exchange::Exchange;
use crate::requests::front::Front;
use crate::requests::handler::{Handler, HandlesFrom, ReadsFrom};
use crate::runs::ending::NotMapped;
use arrayvec::ArrayVec;
use dm_map::{MapFault, Mapper, Taken};
use dm_stack::{DeviceId, Stack};
use dm_table::{InFault, OutFault, Output, Request};
use std::marker::PhantomData;

/// Joins the units of a request to a device of the stack, and writes them. The join holds no piece before the call.
///
/// Inlined, unless the functions inlined into this one get very large: RESULTS.md has the gain as *what writes an
/// answer is inlined*. Measure small requests if you change a function that this one calls.
#[inline(always)]
fn write_joined<T: Taken, W: Output>(
    mapper: &mut Mapper<'_, T>,
    request: &Request<'_>,
    device: DeviceId,
    join: &mut Join<'_, W>,
) -> Result<(), OutFault>
    requires stack { mapper.old.stack ≡ join.old.held.stack }
    requires going { mapper.old.failed ≡ false }
    requires device { device < length join.old.held.stack.devices }
    requires nothing { join.old.held.piece ≡ None }
    ensures stack { mapper.new.stack ≡ mapper.old.stack }
    ensures going { OnOk result (mapper.new.failed ≡ false) }
    ensures state { OnOk result
        (mapper.new.state ≡ (step_of join.old.held.stack device (numbered request.now)
        mapper.old.state).state) }
    ensures of_stack { join.new.held.stack ≡ join.old.held.stack }
    ensures nothing { join.new.held.piece ≡ None }
    ensures same_reference { IsSameReference join.old.writer join.new.writer }
    ensures wrote { Wrote (W.past join.old.writer.now) (W.past join.new.writer.now) result
        (request_answer join.old.held.stack device (numbered request.now) mapper.old.state) }
{
    join.begin(request.number);
    match mapper.request_or_home(request, device, join) {
        Ok(None) => join.finish(),
        Ok(Some(home)) => join.write_range(&DiskRange::at(request.op, home, request.len)),
        Err(MapFault::Sink(fault)) => Err(fault),
        Err(MapFault::Stopped) => unreachable!(),
    }
}

/// Whether it pays to read ahead: a device has many lines to search, or a snapshot's store may hold many chunks. An
/// answer then mostly waits for memory, and waits that begin together overlap.
pub(crate) fn gains_by_reading_ahead(stack: &Stack) -> bool {
    !stack.snapshots().is_empty() || stack.has_buckets()
}

/// Reads what the answers to these requests will read first, so that it is already in the cache. Returns a value that
/// depends on all reads, because a compiler leaves out a read whose result is unused.
///
/// First collects the chunks, then looks them all up: with little code between look-ups, more of their waits overlap.
#[inline(always)]
pub(crate) fn read_ahead<T: Taken>(
    stack: &Stack,
    mapper: &Mapper<'_, T>,
    fronts: &[Front<'_>],
) -> u64 {
    let mut read = 0;
    let mut chunks = ArrayVec::<(DeviceId, u64), MOST_FRONTS>::new();
    for front in fronts {
        let start = front.request.start;
        if let Some(starts) = stack.starts_ahead(front.device, start) {
            read ^= starts;
        } else if let Some(chunk) = stack.chunk_ahead(front.device, start) {
            let _pushed = chunks.try_push((front.device, chunk));
        }
    }
    for (device, chunk) in &chunks {
        read ^= mapper.prefetch(*device, *chunk);
    }
    read
}

/// Writes the pieces to which a mapper maps requests, through a join.
#[derive(Drop)]
pub(crate) struct RequestMapper<'m, 's, T, W> {
    pub(crate) join: Join<'m, W>,
    /// A sum over what was read ahead of requests. Nothing uses it, but without it the compiler would leave out the
    /// reads.
    pub(crate) prefetched: u64,
    /// The types of the mapper that answers requests: its stack's lifetime, and how it stores taken chunks.
    pub(crate) mapper: PhantomData<(&'s Stack, T)>,
}

impl<'s, T: Taken, W: Output> Handler for RequestMapper<'_, 's, T, W> {
    type Source = Mapper<'s, T>;

    type Fault = NotMapped;

    ghost ready = { λ stack h mapper. IsReady stack mapper h.join.held };

    ghost answered = { λ stack old before requests new after.
        HasAnswered stack before.state after.state requests (W.past old.join.writer.now).written
        (W.past new.join.writer.now).written
        × HasWrittenTo W.past old.join.writer new.join.writer 0
        × (after.stack ≡ before.stack) };

    ghost stopped = { λ stack old before requests fault new after.
        HasStopped stack fault before.state after requests (W.past old.join.writer.now).written
        (W.past new.join.writer.now).written
        × HasWrittenTo W.past old.join.writer new.join.writer (failed_writes fault)
        × (after.stack ≡ before.stack)
        × (new.join.held.piece ≡ None) };

    ghost answered_none = { λ stack h mapper. (
      answered_none stack mapper.state (W.past h.join.writer.now).written,
      written_to_none W.past h.join.writer,
      refl,
    ) };

    ghost answered_then_answered = { λ stack a b c s t u us vs first second. (
      answered_more stack s.state t.state u.state us vs _ _ _ first.1.moved.appends second.1.moved.appends first.0
          second.0,
      written_to_more W.past a.join.writer b.join.writer c.join.writer 0 first.1 second.1,
      second.2 ∙ first.2,
    ) };

    ghost answered_then_stopped = { λ stack a b c s t u us vs fault first second. (
      stopped_more stack fault s.state t.state u us vs _ _ _ first.1.moved.appends second.1.moved.appends first.0
          second.0,
      written_to_more W.past a.join.writer b.join.writer c.join.writer (failed_writes fault) first.1 second.1,
      second.2 ∙ first.2,
      second.3,
    ) };

    #[inline(always)]
    fn handle(
        &mut self,
        _stack: &Stack,
        mapper: &mut Mapper<'s, T>,
        request: &Request<'_>,
        device: Option<DeviceId>,
    ) -> Result<(), NotMapped> {
        let Some(device) = device else {
            return Err(NotMapped::Unknown(request.number));
        };
        match write_joined(mapper, request, device, &mut self.join) {
            Ok(()) => Ok(()),
            Err(OutFault) => Err(NotMapped::Output),
        }
    }

    fn batches(&self, stack: &Stack) -> bool {
        gains_by_reading_ahead(stack)
    }

    #[inline(always)]
    fn prefetch(&mut self, stack: &Stack, mapper: &Mapper<'s, T>, fronts: &[Front<'_>]) {
        let read = read_ahead(stack, mapper, fronts);
        self.prefetched = self.prefetched.wrapping_add(read);
    }
}

impl<T: Taken, W: Output, Q: Exchange<W>> ReadsFrom<Q> for RequestMapper<'_, '_, T, W> {
    ghost asked = { Q.past };

    ghost is_out = { λ h. W.is_out h.join.writer.now };

    fn read(&self, requests: &mut Q, buffer: &mut [u8]) -> Result<usize, InFault> {
        requests.read(&*self.join.writer, buffer)
    }
}

impl<T: Taken, W: Output, Q: Exchange<W>> HandlesFrom<Q> for RequestMapper<'_, '_, T, W> {
    fn before_read(&mut self) {
        self.join.drain();
    }
}
