//! Legs: runs of a line's sectors with one thing below, such as consecutive sectors, zeros or errors.
//!
//! This module decides what a target without state does with its sectors; only striped lines (`legs`) have more
//! than one leg. A walk goes down leg by leg, and depends on what lies below a leg, not on the target. To add a
//! target, add an arm to `leg`.

ghost use Rattle.dm_stack.specs.Prelude.{ℕ, IsTargetSound, Description, AreInside, HasSectors, IsLeg, LiesOnDisk};
ghost use Rattle.std.specs.Prelude.{◌≡◌, ◌+◌, ◌≤◌};

use crate::id::{DiskId, Lower};
use crate::lines::resolved_line::{ResolvedOrigin, ResolvedSnapshot, ResolvedTarget};

/// What lies below the sectors of a leg.
#[derive(Clone, Copy, Drop)]
pub enum Beneath<'l> {
    /// Consecutive sectors of a device or a disk, from `sector` on.
    Lies { to: Lower, sector: u64 },
    /// No sectors: reads return zeros, and writes are discarded.
    Zeros,
    /// No sectors: every request fails.
    Errors,
    /// A snapshot, whose state determines where each of its sectors lies.
    Snapshot(&'l ResolvedSnapshot),
    /// The sectors that this origin's line names; before a write, the origin's snapshots take their chunks.
    Origin(&'l ResolvedOrigin),
}

/// A run of `len` consecutive sectors of a line, and what lies below them.
#[derive(Clone, Copy, Drop)]
pub struct Leg<'l> {
    pub below: Beneath<'l>,
    pub len: u64,
}

impl<'l> Leg<'l> {
    /// The disk that the leg lies on, and the sector of the disk at which it starts.
    #[inline(always)]
    pub fn on_disk(&self) -> (DiskId, u64)
        requires { LiesOnDisk self.now.below }
        ensures { self.now.below ≡ Beneath.Lies (Lower.Disk result.0) result.1 }
    {
        let Beneath::Lies {
            to: Lower::Disk(disk),
            sector,
        } = self.below
        else {
            unreachable!()
        };
        (disk, sector)
    }
}

impl ResolvedTarget {
    /// The leg at a distance into a line with this target: its length, at most `most`, and what lies below it. In
    /// a striped line, a leg ends where a chunk ends; for any other target, one leg covers all the sectors. Where
    /// the sectors of a snapshot lie, and what a write to an origin does first, depends on the state. No memory
    /// is allocated.
    #[inline(always)]
    pub fn leg(&self, distance: u64, most: u64) -> Leg<'_>
        requires some { 1 ≤ most }
        requires there { HasSectors self.now distance most }
        ensures leg { IsLeg self.now distance most result }
        ensures inside { (stack : Description) (device start len : ℕ)
            → IsTargetSound stack device start len self.now → distance + most ≤ len
            → AreInside stack result.len result.below }
    {
        match self {
            ResolvedTarget::Linear { to, offset } => Leg {
                below: Beneath::Lies {
                    to: *to,
                    sector: *offset + distance,
                },
                len: most,
            },
            ResolvedTarget::Striped { .. } => {
                let mut legs = self.legs(distance, most);
                let Some(leg) = legs.next_leg() else {
                    unreachable!()
                };
                leg
            }
            ResolvedTarget::Zero => Leg {
                below: Beneath::Zeros,
                len: most,
            },
            ResolvedTarget::Error => Leg {
                below: Beneath::Errors,
                len: most,
            },
            ResolvedTarget::Snapshot(snapshot) => Leg {
                below: Beneath::Snapshot(snapshot),
                len: most,
            },
            ResolvedTarget::Origin(origin) => Leg {
                below: Beneath::Origin(origin),
                len: most,
            },
        }
    }
}
