//! The snapshots of an origin, and what a write to the origin's device does before it writes.
//!
//! Each snapshot takes the chunk of the written sector, so that it keeps what the origin held. Then all following
//! sectors whose chunks need not be taken are written: a range is cut where a snapshot has something left to do,
//! not at the end of each chunk.

ghost use Rattle.dm_map.specs.Prelude.{OnOk, true, All, serve, AreSettled, IsLongest, IsOver, is_settled, taken_at, HasRoomFor, IsWalked};
ghost use Rattle.dm_stack.specs.declared.checks.limits.TheConstants.{MOST_LENGTH};
ghost use Rattle.std.specs.Prelude.{◌≡◌, ◌+◌, ◌/◌, ◌≤◌};

use crate::pieces::sink::Sink;
use crate::state::taken::Taken;
use crate::state::walker::Walker;
use crate::walk::chunk::part_of_chunk;
use crate::walk::take_chunk::{is_settled, take_chunk};
use dm_stack::ResolvedOver;

/// Makes each snapshot of an origin, in order, take its chunk that contains a sector.
pub(crate) fn serve<S: Sink, T: Taken>(
    walker: &mut Walker<'_, T>,
    over: &[ResolvedOver],
    sector: u64,
    sink: &mut S,
) -> Result<(), S::Fault>
    requires over { All (IsOver walker.old.stack (sector + 1)) over.now }
    requires sink { HasRoomFor S.past sink.old walker.old.stack 0 }
    ensures walked { IsWalked S.past result sink.old sink.new walker.old walker.new
        (serve walker.old.stack over.now sector walker.old.state) 0 }
    ensures settled { OnOk result (AreSettled walker.new.state over.now sector) }
{
    walker.recall_soundness();
    walker.recall_tables();
    for one in over {
        let chunk = one.snapshot.chunk.chunk_of(sector);
        take_chunk(walker, one.device, &one.snapshot, chunk, sink)?;
    }
    Ok(())
}

/// How many of `most` sectors of an origin, from `sector` on, come before the first one whose chunk isn't settled
/// in some snapshot. The chunk of `sector` itself must be settled.
///
/// Changes nothing, tests each chunk of a snapshot at most once, and tests no chunk of a lost snapshot.
pub(crate) fn settled_part<T: Taken>(
    walker: &Walker<'_, T>,
    over: &[ResolvedOver],
    sector: u64,
    most: u64,
) -> u64
    requires over { All (IsOver walker.now.stack (sector + most)) over.now }
    requires some { 1 ≤ most }
    requires small { sector + most ≤ MOST_LENGTH }
    requires here { AreSettled walker.now.state over.now sector }
    ensures { IsLongest (λ i. AreSettled walker.now.state over.now (sector + i)) most result }
{
    let mut part = most;
    for one in over {
        part = settled_in(walker, one, sector, part);
    }
    part
}

/// How many of `most` sectors of a snapshot, from `sector` on, come before the first one whose chunk isn't
/// settled. The chunk of `sector` itself must be settled.
fn settled_in<T: Taken>(walker: &Walker<'_, T>, one: &ResolvedOver, sector: u64, most: u64) -> u64
    requires over { IsOver walker.now.stack (sector + most) one.now }
    requires some { 1 ≤ most }
    requires small { sector + most ≤ MOST_LENGTH }
    requires here { is_settled (taken_at walker.now.state one.now.device)
        (sector / one.now.snapshot.chunk) ≡ true }
    ensures { IsLongest (λ i. is_settled (taken_at walker.now.state one.now.device)
        ((sector + i) / one.now.snapshot.chunk) ≡ true) most result }
{
    walker.recall_soundness();
    if !walker.is_valid(one.device) {
        return most;
    }
    let chunk_size = one.snapshot.chunk;
    let mut part = part_of_chunk(chunk_size, sector, most);
    while part < most && is_settled(walker, one.device, chunk_size.chunk_of(sector + part)) {
        part += part_of_chunk(chunk_size, sector + part, most - part);
    }
    part
}
