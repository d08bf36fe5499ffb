//! Replays requests on the disks of a stack: the handler of a replay, and the run of the handler over request lines.
//!
//! `specs/ReplayOutcome.antt` defines what is written for all requests, and what is written for each of them.

ghost use Rattle.dmremap.specs.Prelude.{false, refl, ◌∙◌, delivery, written_since, HasWrittenTo, IsReadOn, written_to_none, written_to_more, requests_of, replay_from, Does, HasDone, failed_writes, CanMap, ReplaysStack, HasPlayed, HasStopped, IsPlayed, AskedBy, HasMetBy};
ghost use Rattle.dmremap.specs.laws.Played.{played_none, played_more, stopped_more};
ghost use Rattle.std.specs.Prelude.{◌≡◌};

use crate::exit::{Exit, Refusal};
use dm_map::{Mapper, TrieTaken};
use dm_replay::{Replay, ReplayFault, write_runs};
use dm_stack::{DeviceId, Stack};
use dm_stream::{Ending, Exchange, Handler, HandlesFrom, ReadsFrom, handle_requests};
use dm_table::{InFault, LoadFault, OutFault, Output, Part, Request};
use std::alloc::Global;
use std::marker::PhantomData;

/// Plays requests, and writes the answers of their sectors to an output.
#[derive(Drop)]
struct RequestPlayer<'m, 's, W> {
    alloc: Global,
    output: &'m mut W,
    /// The replayed stack, of which only the lifetime is needed here, because the answers share it.
    stack: PhantomData<&'s Stack>,
}

impl<'s, W: Output> Handler for RequestPlayer<'_, 's, W> {
    type Source = Replay<'s, TrieTaken>;

    type Fault = Exit;

    ghost ready = { λ stack h replay. (replay.stack ≡ stack) × (replay.failed ≡ false) };

    ghost answered = { λ stack old before requests new after.
        HasPlayed stack before.start before.asked after.asked requests (W.past old.output.now).written
        (W.past new.output.now).written
        × (after.start ≡ before.start)
        × HasWrittenTo W.past old.output new.output 0 };

    ghost stopped = { λ stack old before requests exit new after.
        HasStopped stack before.start exit before.asked requests
        (written_since (W.past old.output.now) (W.past new.output.now))
        × HasWrittenTo W.past old.output new.output (failed_writes exit) };

    ghost answered_none = { λ stack h replay. (
      played_none stack replay.start replay.asked (W.past h.output.now).written,
      refl,
      written_to_none W.past h.output,
    ) };

    ghost answered_then_answered = { λ stack a b c s t u us vs first second. (
      played_more stack s.start s.asked t.asked u.asked us vs _ _ _ first.2.moved.appends second.2.moved.appends first.0
          (rw first.1 at second.0),
      second.1 ∙ first.1,
      written_to_more W.past a.output b.output c.output 0 first.2 second.2,
    ) };

    ghost answered_then_stopped = { λ stack a b c s t u us vs exit first second. (
      stopped_more stack s.start exit s.asked t.asked us vs _ _ _ first.2.moved.appends second.1.moved.appends first.0
          (rw first.1 at second.0),
      written_to_more W.past a.output b.output c.output (failed_writes exit) first.2 second.1,
    ) };

    fn handle(
        &mut self,
        stack: &Stack,
        replay: &mut Replay<'s, TrieTaken>,
        request: &Request<'_>,
        device: Option<DeviceId>,
    ) -> Result<(), Exit> {
        let Some(device) = device else {
            return Err(Exit::NotTop(request.number));
        };
        match replay.request_of(self.alloc, request, device) {
            Ok(runs) => match write_runs(stack, request.number, &runs, &mut *self.output) {
                Ok(()) => Ok(()),
                Err(OutFault) => Err(Exit::Ended(Ending::WriteFault)),
            },
            Err(ReplayFault::NotTop) => Err(Exit::NotTop(request.number)),
            Err(ReplayFault::Memory) => Err(Exit::Memory),
            Err(ReplayFault::Untidy | ReplayFault::Stopped) => unreachable!(),
        }
    }
}

impl<W: Output, Q: Exchange<W>> ReadsFrom<Q> for RequestPlayer<'_, '_, W> {
    ghost asked = { Q.past };

    ghost is_out = { λ h. W.is_out h.output.now };

    fn read(&self, requests: &mut Q, buffer: &mut [u8]) -> Result<usize, InFault> {
        requests.read(&*self.output, buffer)
    }
}

impl<W: Output, Q: Exchange<W>> HandlesFrom<Q> for RequestPlayer<'_, '_, W> {
    fn before_read(&mut self) {
        self.output.drain();
    }
}

/// Plays requests and writes their answers, up to the first bad request, the end or a fault. Doesn't flush the output.
fn play_requests<'s, Q: Exchange<W>, W: Output>(
    alloc: Global,
    stack: &Stack,
    replay: &mut Replay<'s, TrieTaken>,
    requests: &mut Q,
    output: &mut W,
) -> Exit
    requires new { replay.old ≡ replay_from stack.now replay.old.start }
    ensures reads { IsReadOn (Q.past requests.old) (Q.past requests.new) }
    ensures met { HasMetBy result (Q.past requests.old) (Q.past requests.new) }
    ensures played { HasDone
        (IsPlayed stack.now replay.old.start (requests_of (delivery (Q.past requests.old) (Q.past requests.new))))
        (W.past output.old) (W.past output.new) result }
{
    let mut player = RequestPlayer {
        alloc,
        output,
        stack: PhantomData,
    };
    let played = handle_requests(stack, requests, &mut player, replay);
    let RequestPlayer {
        output: _output,
        ..
    } = player;
    match played {
        Ok(ending) => Exit::Ended(ending),
        Err(exit) => exit,
    }
}

/// Replays requests on the disks of a stack, starting in the state of a mapper, and returns the exit that the command
/// would have. Doesn't flush the output.
pub(crate) fn replay_stack<'s, Q: Exchange<W>, W: Output>(
    alloc: Global,
    stack: &'s Stack,
    mapper: Mapper<'s, TrieTaken>,
    requests: &mut Q,
    output: &mut W,
) -> Exit
    requires { CanMap stack.now mapper }
    ensures did { HasDone (Does
        (ReplaysStack stack.now mapper.entry.state (delivery (Q.past requests.old) (Q.past requests.new))))
        (W.past output.old) (W.past output.new) result }
    ensures asked { AskedBy (Q.past requests.old) (Q.past requests.new) result }
{
    mapper.recall_places();
    match Replay::go_on(alloc, stack, mapper) {
        Ok(mut replay) => play_requests(alloc, stack, &mut replay, requests, output),
        Err(ReplayFault::Untidy) => Exit::Refused(Refusal::Untidy),
        Err(_) => Exit::unloaded(LoadFault::memory(Part::Source)),
    }
}
