//! Requests whose sectors are all consecutive on one disk, as most are.
//!
//! The mapper returns the place on the disk, so its caller knows that the request does nothing else.
//!
//! This is here for speed alone, since the walk handles these requests, too: RESULTS.md lists the gain as *a
//! range that lies on one disk is returned and written at once*. Like the walk, it relies on
//! `ResolvedTarget::leg`: a linear line on a disk has one leg. If you change it, measure small requests, and
//! first writes, before and after.

ghost use Rattle.dm_map.specs.Prelude.{IfSome, Disk, IsLineOf, handed, IsLegOf};
ghost use Rattle.dm_stack.specs.declared.lines.leg.Beneath.TheVariants.{Lies};
ghost use Rattle.std.specs.Prelude.{◌≡◌, ◌+◌, ◌-◌, ◌≤◌};

use crate::state::taken::Taken;
use crate::state::walker::Walker;
use dm_stack::{Beneath, DeviceId, DiskId, Leg, Lower, ResolvedLine, ResolvedTarget};

/// Where consecutive sectors are on a disk: from the sector `start` on.
#[derive(Clone, Copy, Drop)]
pub struct Home {
    pub disk: DiskId,
    pub start: u64,
}

/// Where sectors of a line start on a disk, if the line is linear over that disk.
#[inline(always)]
pub(crate) fn home_in<T: Taken>(
    walker: &Walker<'_, T>,
    device: DeviceId,
    line: &ResolvedLine,
    sector: u64,
    len: u64,
) -> Option<Home>
    requires line { IsLineOf walker.now.stack device line.now sector }
    requires some { 1 ≤ len }
    requires inside { sector + len ≤ line.now.start + line.now.len }
    ensures { IfSome result (λ home. IsLegOf walker.now.stack device line.now (sector - line.now.start)
        (record { below = Lies (Disk home.disk) home.start; len = len })) }
{
    if !is_on_disk(line) {
        return None;
    }
    walker.recall_soundness();
    let Leg { below, len: part } = line.target.leg(sector - line.start, len);
    let Beneath::Lies { to, sector: start } = below else {
        return None;
    };
    match to {
        Lower::Disk(disk) if part == len => Some(Home { disk, start }),
        _ => None,
    }
}

/// Whether a line is linear over a disk.
#[inline(always)]
fn is_on_disk(line: &ResolvedLine) -> bool {
    matches!(
        line.target,
        ResolvedTarget::Linear {
            to: Lower::Disk(_),
            ..
        }
    )
}

/// The result of a request whose operations were all handed to the sink, so it contains no home.
#[inline(always)]
pub(crate) fn handed<F>(answer: Result<(), F>) -> Result<Option<Home>, F>
    ensures { result ≡ handed answer }
{
    match answer {
        Ok(()) => Ok(None),
        Err(fault) => Err(fault),
    }
}
