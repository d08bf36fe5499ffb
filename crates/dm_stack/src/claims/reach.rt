//! How far claims reach on each lower device and disk.
//!
//! If claims are visited in the order of their starts, only the greatest ends so far are needed, because a claim
//! that starts before one of these ends clashes with an earlier claim.

ghost use Rattle.dm_stack.specs.Prelude.{IfOk, length, is_same_lower, IsCounted, no_reach, reach_at, reach_meets, reach_with, Lower};
ghost use Rattle.std.specs.Prelude.{◌≡◌, if◌then◌else◌};

use crate::claims::claim::Claim;
use crate::id::Lower;
use dm_table::Use;
use std::alloc::{AllocError, Global};

/// The greatest ends of claims of each kind on one device or disk; 0 for a kind without claims.
#[derive(Clone, Copy, Drop)]
pub(crate) struct Reach {
    /// The greatest end of claims that share sectors with no other claim.
    own: u64,
    /// The greatest end of claims that do more than read.
    held: u64,
    all: u64,
}

impl Reach {
    /// The reach with one more claim.
    fn with(self, claim: &Claim) -> Reach
        ensures { result ≡ reach_with self claim.now }
    {
        let own = match claim.kind {
            Use::Own => claim.end,
            Use::Reading | Use::Serving => 0,
        };
        let held = match claim.kind {
            Use::Own | Use::Serving => claim.end,
            Use::Reading => 0,
        };
        Reach {
            own: self.own.max(own),
            held: self.held.max(held),
            all: self.all.max(claim.end),
        }
    }

    /// Whether a claim clashes with one of the claims of this reach, none of which may start after the claim.
    pub(crate) fn meets(self, claim: &Claim) -> bool
        ensures { result ≡ reach_meets self claim.now }
    {
        let end = match claim.kind {
            Use::Own => self.all,
            Use::Reading => self.own,
            Use::Serving => self.held,
        };
        claim.start < claim.end && claim.start < end
    }
}

/// The reach of claims on every device and disk.
#[derive(Drop)]
pub(crate) struct Reaches {
    devices: Vec<Reach>,
    disks: Vec<Reach>,
}

impl Reaches {
    /// The reach of no claims, on devices and disks with ids below these counts.
    pub(crate) fn new(alloc: Global, devices: usize, disks: usize) -> Result<Reaches, AllocError>
        ensures none { IfOk result (λ reaches. (lower : Lower) → reach_at reaches lower ≡ no_reach) }
        ensures devices { IfOk result (λ reaches. length reaches.devices.items ≡ devices) }
        ensures disks { IfOk result (λ reaches. length reaches.disks.items ≡ disks) }
    {
        let none = Reach {
            own: 0,
            held: 0,
            all: 0,
        };
        Ok(Reaches {
            devices: vec![in alloc; none; devices]?,
            disks: vec![in alloc; none; disks]?,
        })
    }

    /// The reach of the claims on this device or disk.
    pub(crate) fn at(&self, lower: Lower) -> Reach
        requires { IsCounted (length self.now.devices.items) (length self.now.disks.items) lower }
        ensures { result ≡ reach_at self.now lower }
    {
        match lower {
            Lower::Device(id) => self.devices[id.index()],
            Lower::Disk(id) => self.disks[id.index()],
        }
    }

    /// Adds a claim to the reach of its device or disk.
    pub(crate) fn add(&mut self, claim: &Claim)
        requires { IsCounted (length self.old.devices.items) (length self.old.disks.items) claim.now.to }
        ensures reach { (lower : Lower) → reach_at self.new lower ≡ (if is_same_lower claim.now.to lower
            then reach_with (reach_at self.old lower) claim.now else reach_at self.old lower) }
        ensures devices { length self.new.devices.items ≡ length self.old.devices.items }
        ensures disks { length self.new.disks.items ≡ length self.old.disks.items }
    {
        let reach = self.at(claim.to).with(claim);
        match claim.to {
            Lower::Device(id) => self.devices[id.index()] = reach,
            Lower::Disk(id) => self.disks[id.index()] = reach,
        }
    }
}
