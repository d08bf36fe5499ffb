//! The check for devices that are too deep, and the depth of a stack.
//!
//! The functions of `graph` find the depths, and cut off any depth above the limit at one more than the limit.
//! Both functions of this module go over the depths once.

ghost use Rattle.dm_stack.specs.Prelude.{None, length, nat_lt, slice_index_or, result_err, Deep, first_or, greatest, faults_by_id};
ghost use Rattle.std.specs.Prelude.{◌≡◌};

use crate::checks::graph::MOST_DEPTH;
use dm_table::{DeviceSpec, LoadFault, LoadKind};

/// Fails at the first device whose depth is above the limit.
///
/// Cost: a walk over the devices.
pub(crate) fn check_depths(devices: &[DeviceSpec], depths: &[u32]) -> Result<(), LoadFault>
    requires { length depths.now ≡ length devices.now }
    ensures { result_err result ≡ first_or
        (faults_by_id Deep (λ id. nat_lt MOST_DEPTH (slice_index_or depths.now id 0)) 0 devices.now) None }
{
    for (id, device) in devices.iter().enumerate() {
        if MOST_DEPTH < depths[id] {
            return Err(LoadFault {
                kind: LoadKind::Deep,
                at: device.at,
            });
        }
    }
    Ok(())
}

/// The greatest depth of a list, or 0 for an empty list.
pub(crate) fn deepest(depths: &[u32]) -> u32
    ensures { result ≡ greatest depths.now }
{
    let mut deepest = 0;
    for depth in depths {
        deepest = deepest.max(*depth);
    }
    deepest
}
