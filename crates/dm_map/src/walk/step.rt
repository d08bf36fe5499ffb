//! One step along a device: how many sectors are left in a line.
//!
//! The walk and the search for a stretch share this step, so that neither depends on the other.

ghost use Rattle.dm_map.specs.Prelude.{min};
ghost use Rattle.std.specs.Prelude.{◌≡◌, ◌-◌, ◌<◌};

use dm_stack::ResolvedLine;

/// How many of `most` sectors, from a distance into a line on, are in the line.
pub(crate) fn part_in(line: &ResolvedLine, distance: u64, most: u64) -> u64
    requires { distance < line.now.len }
    ensures { result ≡ min most (line.now.len - distance) }
{
    most.min(line.len - distance)
}
