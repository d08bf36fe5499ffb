//! The exception store of a snapshot, if the store keeps a list.

ghost use Rattle.dm_store.specs.Prelude.{IfSome, IsSnapshot, IsStoreOf, store_at};
ghost use Rattle.std.specs.Prelude.{◌≡◌};

use crate::store::Store;
use dm_map::lower_len;
use dm_stack::{DeviceId, ResolvedTarget, Stack, place_count};
use dm_table::StoreKind;

/// The store of a snapshot; None if it is transient, because such a store is never read, and its snapshot starts fresh.
pub fn store_at(stack: &Stack, device: DeviceId) -> Option<Store>
    requires { IsSnapshot stack.now device }
    ensures is { result ≡ store_at stack.now device }
    ensures of { IfSome result (λ store. IsStoreOf stack.now device store) }
{
    // The contract of `depth` ensures that the stack is sound.
    stack.depth();
    let mut looker = stack.looker();
    let ResolvedTarget::Snapshot(snapshot) = &looker.look(device, 0).target else {
        unreachable!()
    };
    if snapshot.kind == StoreKind::Transient {
        return None;
    }
    let len = lower_len(&looker, snapshot.store);
    Some(Store {
        lower: snapshot.store,
        chunk: snapshot.chunk,
        len,
        places: place_count(snapshot.kind, snapshot.chunk, len),
        last: snapshot.chunk.chunk_of(stack.len(device) - 1),
    })
}
