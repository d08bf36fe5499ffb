//! How much of a snapshot's exception store is used.

ghost use Rattle.dm_map.specs.Prelude.{IfSome, IsSnapshot, allocated, metadata, AreAdded, taken_at, snapshot_at, usage_of, stack_state};
ghost use Rattle.std.specs.Prelude.{◌≡◌, ◌+◌, ◌<◌, ◌≤◌, ◌^◌};

use crate::state::taken::Taken;
use crate::state::walker::Walker;
use dm_stack::{ChunkSize, DeviceId, ResolvedTarget, allocated, metadata};
use dm_table::StoreKind;

#[cfg(test)]
mod tests;

/// The usage of a snapshot's store, in sectors of 512 bytes.
#[derive(Clone, Copy, Debug, PartialEq, Eq, Drop)]
pub struct Usage {
    /// The number of sectors before the place of the next chunk. If a metadata area comes right before that
    /// place, this can be more than the store's length.
    pub allocated: u64,
    /// The length of the store in sectors.
    pub total: u64,
    /// How many of the allocated sectors belong to the header and metadata areas; 0 for a transient store.
    pub metadata: u64,
    /// Whether the snapshot is valid.
    pub valid: bool,
}

/// The usage of a snapshot in the walker's state. Costs one look-up.
pub(crate) fn usage_of<T: Taken>(walker: &mut Walker<'_, T>, device: DeviceId) -> Usage
    requires { IsSnapshot walker.old.stack device }
    ensures usage { IfSome (snapshot_at walker.old.stack device)
        (λ snapshot. result ≡ usage_of walker.old.stack snapshot (taken_at walker.old.state device)) }
    ensures same { stack_state walker.new ≡ stack_state walker.old }
    ensures looked { AreAdded walker.old.looked walker.new.looked }
    ensures one { walker.new.looked.searches ≤ walker.old.looked.searches + 1 }
{
    walker.recall_soundness();
    let line = walker.look(device, 0);
    let ResolvedTarget::Snapshot(snapshot) = &line.target else {
        unreachable!()
    };
    let total = walker.lower_len(snapshot.store);
    let valid = walker.is_valid(device);
    usage_with(
        snapshot.kind,
        snapshot.chunk,
        walker.count(device),
        total,
        valid,
    )
}

/// The usage of a store of this kind, chunk size and length, with this many taken chunks.
fn usage_with(
    kind: StoreKind,
    chunk_size: ChunkSize,
    taken: usize,
    total: u64,
    valid: bool,
) -> Usage
    requires { allocated kind chunk_size taken < 2 ^ 63 }
    ensures { result ≡ record {
      allocated = allocated kind chunk_size taken;
      total = total;
      metadata = metadata kind chunk_size taken;
      valid = valid;
    } }
{
    let taken = taken as u64;
    Usage {
        allocated: allocated(kind, chunk_size, taken),
        total,
        metadata: metadata(kind, chunk_size, taken),
        valid,
    }
}
