//! The check of how many chunks all stores together have room for.

ghost use Rattle.dm_stack.specs.Prelude.{None, All, result_err, first_or, HaveGoodChunks, crowded, places_of};
ghost use Rattle.std.specs.Prelude.{◌≡◌};

use crate::checks::limits::MOST_PLACES;
use crate::lines::resolved::Resolved;
use crate::lines::resolved_line::ResolvedTarget;
use crate::lines::store_layout::place_count;
use dm_table::{LoadFault, LoadKind};

/// Fails at the first snapshot whose store and all earlier stores have room for more than 4,194,304 chunks.
///
/// Cost: a walk over the lines.
pub(crate) fn check_places(stack: &Resolved) -> Result<(), LoadFault>
    requires { All (λ device. HaveGoodChunks device.lines) stack.now.devices }
    ensures { result_err result ≡ first_or (crowded stack.now) None }
{
    let mut used = 0;
    let by_ids = stack.by_ids();
    for (id, device) in stack.devices().iter().enumerate() {
        let resolved = by_ids[id].table.lines();
        for (index, line) in device.lines.as_slice().iter().enumerate() {
            let places = places_of(stack, &resolved[index].target);
            if places == 0 {
                continue;
            }
            if MOST_PLACES - used < places {
                return Err(LoadFault {
                    kind: LoadKind::Limit,
                    at: line.at,
                });
            }
            used += places;
        }
    }
    Ok(())
}

/// How many chunks the store of a snapshot has room for; 0 for any other target.
fn places_of(stack: &Resolved, target: &ResolvedTarget) -> u64
    ensures { result ≡ places_of stack.now target.now }
{
    match target {
        ResolvedTarget::Snapshot(snapshot) => {
            place_count(snapshot.kind, snapshot.chunk, stack.len_of(snapshot.store))
        }
        _ => 0,
    }
}
