//! Homes: where on disks the sectors of an exception store lie.
//!
//! A store consists of linear and striped lines, down to disks, so writes never change the homes of its sectors.

ghost use Rattle.dm_map.specs.Prelude.{lower_len, IsStore, AreAdded, stack_state, IsFirstHomes};
ghost use Rattle.std.specs.Prelude.{◌≡◌, ◌+◌, ◌≤◌};

use crate::state::taken::Taken;
use crate::state::walker::Walker;
use crate::walk::stretch::{Ground, first_stretch};
use dm_stack::{DiskId, Lower, MOST_DEPTH};

/// Consecutive sectors of a disk that hold sectors of a store: `len` sectors, from `start` on.
#[derive(Clone, Copy, Drop)]
pub struct HomeStretch {
    pub disk: DiskId,
    pub start: u64,
    pub len: u64,
}

/// The consecutive disk sectors that hold the first sectors of a range of a store.
pub(crate) fn first_homes<T: Taken>(
    walker: &mut Walker<'_, T>,
    store: Lower,
    sector: u64,
    len: u64,
) -> HomeStretch
    requires some { 1 ≤ len }
    requires inside { sector + len ≤ lower_len walker.old.stack store }
    requires store { IsStore walker.old.stack store }
    ensures is { IsFirstHomes walker.old.stack store sector len result }
    ensures same { stack_state walker.new ≡ stack_state walker.old }
    ensures looked { AreAdded walker.old.looked walker.new.looked }
{
    walker.recall_soundness();
    let stretch = first_stretch(walker, MOST_DEPTH, store, sector, len);
    let Ground::Disk { disk, start } = &stretch.ground else {
        unreachable!()
    };
    HomeStretch {
        disk: *disk,
        start: *start,
        len: stretch.len,
    }
}
