//! The tables of a mapper: for each device of a stack, the chunks that the device took as a snapshot.
//!
//! All memory for taken chunks is reserved when the tables are made, before the first request.

ghost use Rattle.dm_map.specs.Prelude.{ℕ, length, nat_lt, replicate, IfOk, IfSome, All, snapshots, none_taken, start_state, AreTables, has_room, snapshot_at, state_of, device_chunks};
ghost use Rattle.std.specs.Prelude.{◌≡◌, ◌+◌, ◌<◌, ◌≤◌};

use crate::state::taken::Taken;
use crate::state::walker::lower_len;
use dm_stack::{DeviceId, Looker, ResolvedTarget, place_count};
use dm_table::Reserved;
use std::alloc::{AllocError, Global};

/// Makes an empty table for each device of the looker's stack. The table of a snapshot has as many places as its
/// store; that of any other device has none. Each snapshot is looked up once.
///
/// # Errors
///
/// `AllocError` if there is not enough memory.
pub(crate) fn empty_tables<T: Taken>(
    alloc: Global,
    looker: &mut Looker<'_>,
) -> Result<Reserved<T>, AllocError>
    ensures tables { IfOk result (λ tables. AreTables T.places looker.old.stack tables.items) }
    ensures state { IfOk result (λ tables. state_of T.chunks T.valid tables.items
        ≡ start_state looker.old.stack) }
    ensures stack { looker.new.stack ≡ looker.old.stack }
    ensures looked { looker.new.searches ≤ looker.old.searches + length (snapshots looker.old.stack) }
{
    let mut tables = tables_without_places(alloc, looker.device_count())?;
    let count = looker.snapshots().len();
    for next in 0..count {
        let device = looker.snapshots()[next];
        let (places, chunks) = room_of(looker, device);
        let table = T::for_chunks(alloc, places, chunks)?;
        tables[device.index()] = table;
    }
    Ok(Reserved::from_vec(tables))
}

/// Makes `count` tables that have no place for a chunk.
fn tables_without_places<T: Taken>(alloc: Global, count: usize) -> Result<Vec<T>, AllocError>
    ensures count { IfOk result (λ tables. length tables.items ≡ count) }
    ensures places { IfOk result (λ tables. All (λ table. T.places table ≡ 0) tables.items) }
    ensures state { IfOk result (λ tables. state_of T.chunks T.valid tables.items
        ≡ replicate count none_taken) }
{
    let mut tables = Vec::with_capacity(alloc, count)?;
    for _device in 0..count {
        tables.push(T::with_places(alloc, 0)?)?;
    }
    Ok(tables)
}

/// For a snapshot, the number of chunks that its store has room for and the number of chunks in its device; two
/// zeros for any other device.
fn room_of(looker: &mut Looker<'_>, device: DeviceId) -> (usize, u64)
    requires { device < length looker.old.stack.devices }
    ensures places { (number : ℕ) → nat_lt number result.0 ≡ has_room looker.old.stack device number }
    ensures chunks { IfSome (snapshot_at looker.old.stack device)
        (λ snapshot. result.1 ≡ device_chunks looker.old.stack snapshot device) }
    ensures stack { looker.new.stack ≡ looker.old.stack }
    ensures one { looker.new.searches ≤ looker.old.searches + 1 }
{
    // The contract of `depth` states that the stack is sound.
    looker.depth();
    match &looker.look(device, 0).target {
        ResolvedTarget::Snapshot(snapshot) => {
            let len = lower_len(looker, snapshot.store);
            let places = place_count(snapshot.kind, snapshot.chunk, len) as usize;
            (places, snapshot.chunk.chunk_of(looker.len(device) - 1) + 1)
        }
        _ => (0, 0),
    }
}
