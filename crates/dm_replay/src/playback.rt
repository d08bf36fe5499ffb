//! The playback of one request: a mapper hands all of its units, or the first few, to a player on the values of disks.

ghost use Rattle.dm_replay.specs.Prelude.{false, length, min, IfOk, OnOk, device_len, sector_past, halted_units, step_for, AreRunsOf, values_of, played_answers};
ghost use Rattle.dm_replay.specs.Playback.{CanPlay, HasPlayedOf};
ghost use Rattle.std.specs.Prelude.{◌≡◌};

use crate::halting::Halting;
use crate::player::Player;
use crate::value_run::ValueRun;
use dm_map::{MapFault, Mapper, Taken};
use dm_stack::DeviceId;
use dm_table::Request;
use std::alloc::{AllocError, Global};

/// Plays a request to a device of the stack, and returns the answers of its sectors.
///
/// # Errors
///
/// `AllocError` when out of memory; part of the request may have been played.
pub(crate) fn play_request<T: Taken>(
    alloc: Global,
    mapper: &mut Mapper<'_, T>,
    player: &mut Player<'_>,
    request: &Request<'_>,
    device: DeviceId,
) -> Result<Vec<ValueRun>, AllocError>
    requires { CanPlay mapper.old player.old device }
    ensures stack { mapper.new.stack ≡ mapper.old.stack }
    ensures going { OnOk result (mapper.new.failed ≡ false) }
    ensures state { OnOk result
        (mapper.new.state ≡ (step_for mapper.old.stack request.now device mapper.old.state).state) }
    ensures played { OnOk result (HasPlayedOf mapper.old.stack request.now
        (step_for mapper.old.stack request.now device mapper.old.state).units player.old player.new) }
    ensures answers { IfOk result (λ runs. AreRunsOf (length mapper.old.stack.disks)
        (played_answers request.now.number request.now.start
        (step_for mapper.old.stack request.now device mapper.old.state).units
        (values_of player.old.playing.values.disks.items)) runs.items) }
{
    let first = request.start.min(player.stack.len(device));
    player.begin(alloc, request.number, first);
    match mapper.request(request, device, player) {
        Ok(()) => Ok(player.take_runs(alloc)),
        Err(_) => Err(AllocError),
    }
}

/// Plays the first `units` units of a request to a device of the stack, or all if it has fewer. Consumes the mapper,
/// because a mapper fails if the request has more.
///
/// # Errors
///
/// `AllocError` when out of memory.
pub(crate) fn play_front<'s, T: Taken>(
    alloc: Global,
    mut mapper: Mapper<'_, T>,
    mut player: Player<'s>,
    request: &Request<'_>,
    device: DeviceId,
    units: u64,
) -> Result<Player<'s>, AllocError>
    requires { CanPlay mapper player device }
    ensures next { IfOk result (λ later. later.playing.next
        ≡ sector_past (halted_units mapper.entry.stack request.now.op device request.now.start
        request.now.len units mapper.entry.state)
        (min request.now.start (device_len mapper.entry.stack device))) }
    ensures played { IfOk result (HasPlayedOf mapper.entry.stack request.now
        (halted_units mapper.entry.stack request.now.op device request.now.start request.now.len units
        mapper.entry.state) player.entry) }
{
    let first = request.start.min(player.stack.len(device));
    player.begin(alloc, request.number, first);
    let mut halting = Halting::new(player, units);
    match mapper.request(request, device, &mut halting) {
        Ok(()) => Ok(halting.into_player()),
        Err(MapFault::Sink(())) if halting.halted => Ok(halting.into_player()),
        Err(_) => Err(AllocError),
    }
}
