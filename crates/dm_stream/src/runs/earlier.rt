//! Earlier requests: those carried out before a run. They leave the state in which the run starts.
//!
//! Earlier requests are read like those of a run, and played through the same mapper, but their pieces are discarded.

ghost use Rattle.dm_stream.specs.Prelude.{false, refl, ◌∙◌, delivery, HasMoved, HasPlayed, HasStoppedAt, played_ending, requests_outcome, CanMap, IsLeft};
ghost use Rattle.dm_stream.specs.laws.Earlier.{moved_more, moved_none, stopped_more};
ghost use Rattle.std.specs.Prelude.{◌≡◌};

use crate::requests::front::Front;
use crate::requests::handler::{Handler, HandlesFrom, ReadsFrom};
use crate::requests::handling::handle_requests;
use crate::runs::ending::{Ending, RequestWord};
use crate::runs::request_mapper::{gains_by_reading_ahead, read_ahead};
use dm_map::{Discard, MapFault, Mapper, Taken};
use dm_stack::{DeviceId, Stack};
use dm_table::{InFault, Input, Request};
use std::marker::PhantomData;

/// Why earlier requests are refused.
#[derive(Clone, Copy, Debug, PartialEq, Eq)]
pub enum EarlierFault {
    /// The request with this number is bad.
    BadRequest(u64, RequestWord),
    /// Reading the earlier requests failed.
    Read,
}

/// Plays requests on the state of a mapper, without writing answers.
#[derive(Drop)]
struct EarlierPlayer<'s, T> {
    discard: Discard<'s>,
    /// A sum over what was read ahead of requests; `RequestMapper` explains why it is kept.
    prefetched: u64,
    taken: PhantomData<T>,
}

impl<'s, T: Taken> Handler for EarlierPlayer<'s, T> {
    type Source = Mapper<'s, T>;

    /// The number of the request whose device doesn't exist.
    type Fault = u64;

    ghost ready = { λ stack h mapper. CanMap stack mapper × (h.discard.stack.now ≡ stack) };

    ghost answered = { λ stack old before requests new after.
        HasMoved stack before.state after.state requests × (after.stack ≡ before.stack) };

    ghost stopped = { λ stack old before requests number new after.
        HasStoppedAt stack before.state requests number × (after.stack ≡ before.stack)
        × (after.failed ≡ false) };

    ghost answered_none = { λ stack h mapper. (moved_none stack mapper.state, refl) };

    ghost answered_then_answered = { λ stack a b c s t u us vs first second.
        (moved_more stack s.state t.state u.state us vs first.0 second.0, second.1 ∙ first.1) };

    ghost answered_then_stopped = { λ stack a b c s t u us vs number first second. (
      stopped_more stack s.state t.state us vs number first.0 second.0,
      second.1 ∙ first.1,
      second.2,
    ) };

    #[inline(always)]
    fn handle(
        &mut self,
        _stack: &Stack,
        mapper: &mut Mapper<'s, T>,
        request: &Request<'_>,
        device: Option<DeviceId>,
    ) -> Result<(), u64> {
        let Some(device) = device else {
            return Err(request.number);
        };
        match mapper.request(request, device, &mut self.discard) {
            Ok(()) => Ok(()),
            Err(MapFault::Sink(())) => unreachable!(),
            Err(MapFault::Stopped) => unreachable!(),
        }
    }

    fn batches(&self, stack: &Stack) -> bool {
        gains_by_reading_ahead(stack)
    }

    #[inline(always)]
    fn prefetch(&mut self, stack: &Stack, mapper: &Mapper<'s, T>, fronts: &[Front<'_>]) {
        let read = read_ahead(stack, mapper, fronts);
        self.prefetched = self.prefetched.wrapping_add(read);
    }
}

/// Earlier requests have no answers, so no answer can be held back.
impl<T: Taken, R: Input> ReadsFrom<R> for EarlierPlayer<'_, T> {
    ghost asked = { R.past };

    ghost is_out = { λ h. Unit {0} };

    fn read(&self, requests: &mut R, buffer: &mut [u8]) -> Result<usize, InFault> {
        requests.read(buffer)
    }
}

impl<T: Taken, R: Input> HandlesFrom<R> for EarlierPlayer<'_, T> {
    fn before_read(&mut self) {}
}

/// Plays requests line by line without writing answers: the mapper's state changes as if they had been answered.
///
/// The mapper is of this stack and has not failed, before and afterwards. Nothing is read after a bad line, the end
/// or a fault.
///
/// Cost: less than that of `run` for the same requests, because nothing is joined or written. Allocates nothing.
///
/// # Errors
///
/// | Fault | When |
/// |---|---|
/// | `BadRequest` | the line with this number is bad |
/// | `Read` | reading requests failed, and no line delivered before that is bad |
pub fn play_earlier<'s, T: Taken, R: Input>(
    stack: &'s Stack,
    mapper: &mut Mapper<'s, T>,
    requests: &mut R,
) -> Result<(), EarlierFault>
    requires { CanMap stack.now mapper.old }
    // The mapper can map more requests. Nothing is read after the first bad line, the end or a fault.
    ensures left { IsLeft mapper.old mapper.new (R.past requests.old) (R.past requests.new)
        (played_ending result) }
    // The delivered requests determine the state that the mapper is left in, and how playing them ends.
    ensures played { HasPlayed (requests_outcome stack.now mapper.old.state
        (delivery (R.past requests.old) (R.past requests.new))) mapper.new.state result }
{
    let mut player = EarlierPlayer {
        discard: Discard { stack },
        prefetched: 0,
        taken: PhantomData,
    };
    match handle_requests(stack, requests, &mut player, mapper) {
        Ok(Ending::Done) => Ok(()),
        Ok(Ending::BadRequest(number, word)) => Err(EarlierFault::BadRequest(number, word)),
        Ok(Ending::ReadFault) => Err(EarlierFault::Read),
        Ok(Ending::WriteFault) => unreachable!(),
        Err(number) => Err(EarlierFault::BadRequest(number, RequestWord::Unknown)),
    }
}
