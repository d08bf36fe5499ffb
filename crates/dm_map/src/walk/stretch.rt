//! Stretches: where the first sectors of a range are read from, and how many of them are consecutive there.
//!
//! The walk hands pieces to a sink; `first_stretch` follows the same legs and returns the first piece of a read,
//! without a sink and without a loop over sectors, at the cost of one look-up for each level. Copies use it
//! because they need to know the origin's side and the store's side at once.

ghost use Rattle.dm_map.specs.Prelude.{Read, IsLine, lower_len, Device, AreAdded, stack_state, IsFirst, IsFirstOf, IsFirstRead, IsGroundNear, line_step};
ghost use Rattle.std.specs.Prelude.{◌≡◌, ◌+◌, ◌≤◌};

use crate::state::taken::Taken;
use crate::state::walker::Walker;
use crate::walk::chunk::{part_of_chunk, read_at};
use crate::walk::step::part_in;
use dm_stack::{Beneath, DeviceId, DiskId, Leg, Lower, MOST_DEPTH, ResolvedLine};

/// Where consecutive sectors are read from.
#[derive(Clone, Copy, PartialEq, Eq, Drop)]
pub enum Ground {
    /// The sectors are read from a disk, from `start` on.
    Disk { disk: DiskId, start: u64 },
    /// The sectors read as zeros.
    Zeros,
    /// Reading the sectors fails.
    Fails,
}

/// `len` consecutive sectors that are read from one ground.
#[derive(Clone, Copy, Drop)]
pub struct Stretch {
    pub ground: Ground,
    pub len: u64,
}

/// The first stretch of a range of a device or a disk, through at most this many levels of devices.
///
/// The stretch has at least one sector of the range. It ends at the latest where a line, or a chunk of stripes or
/// of a snapshot, ends on the way down.
///
/// The function is inlined, so that sectors of a disk, on which most stores and origins are, cost no call.
#[cycle(stretch)]
#[inline(always)]
pub(crate) fn first_stretch<T: Taken>(
    walker: &mut Walker<'_, T>,
    levels: u32,
    lower: Lower,
    sector: u64,
    len: u64,
) -> Stretch
    requires some { 1 ≤ len }
    requires inside { sector + len ≤ lower_len walker.old.stack lower }
    ensures { IsFirstOf walker.old walker.new levels lower sector len result }
{
    match lower {
        Lower::Disk(disk) => Stretch {
            ground: Ground::Disk {
                disk,
                start: sector,
            },
            len,
        },
        Lower::Device(device) => device_stretch(walker, levels, device, sector, len),
    }
}

/// The first stretch of a range of a device, through at most this many levels of devices.
#[cycle(stretch)]
#[inline(never)]
fn device_stretch<T: Taken>(
    walker: &mut Walker<'_, T>,
    levels: u32,
    device: DeviceId,
    sector: u64,
    len: u64,
) -> Stretch
    requires some { 1 ≤ len }
    requires inside { sector + len ≤ lower_len walker.old.stack (Device device) }
    ensures { IsFirstOf walker.old walker.new levels (Device device) sector len result }
{
    if levels == 0 {
        return Stretch {
            ground: Ground::Fails,
            len,
        };
    }
    let line = walker.look(device, sector);
    let distance = sector - line.start;
    let part = part_in(line, distance, len);
    line_stretch(walker, levels - 1, device, line, distance, part)
}

/// The first stretch of sectors of a line of this device, from a distance into the line on, through at most this
/// many levels of devices below it.
#[cycle(stretch)]
fn line_stretch<T: Taken>(
    walker: &mut Walker<'_, T>,
    levels: u32,
    device: DeviceId,
    line: &ResolvedLine,
    distance: u64,
    len: u64,
) -> Stretch
    requires some { 1 ≤ len }
    requires inside { distance + len ≤ line.now.len }
    requires line { IsLine walker.old.stack device line.now }
    ensures { IsFirst walker.old walker.new
        (line_step walker.old.stack Read levels device line.now.target walker.old.state distance) len
        result }
{
    walker.recall_soundness();
    let Leg { below, len: most } = line.target.leg(distance, len);
    match below {
        Beneath::Lies { to, sector } => first_stretch(walker, levels, to, sector, most),
        Beneath::Zeros => Stretch {
            ground: Ground::Zeros,
            len: most,
        },
        Beneath::Errors => Stretch {
            ground: Ground::Fails,
            len: most,
        },
        Beneath::Origin(origin) => first_stretch(walker, levels, origin.to, distance, most),
        Beneath::Snapshot(snapshot) => {
            let part = part_of_chunk(snapshot.chunk, distance, most);
            match read_at(walker, device, snapshot, distance, part) {
                Some(source) => first_stretch(walker, levels, source.to, source.sector, part),
                None => Stretch {
                    ground: Ground::Fails,
                    len: part,
                },
            }
        }
    }
}

/// Where the first sectors of a range of a device are read from, and how many of them are consecutive there.
pub(crate) fn first_read<T: Taken>(
    walker: &mut Walker<'_, T>,
    device: DeviceId,
    sector: u64,
    len: u64,
) -> Stretch
    requires some { 1 ≤ len }
    requires inside { sector + len ≤ lower_len walker.old.stack (Device device) }
    ensures is { IsFirstRead walker.old.stack walker.old.state (Device device) sector len result }
    ensures near { IsGroundNear result.ground result.len }
    ensures same { stack_state walker.new ≡ stack_state walker.old }
    ensures looked { AreAdded walker.old.looked walker.new.looked }
{
    walker.recall_soundness();
    first_stretch(walker, MOST_DEPTH, Lower::Device(device), sector, len)
}
