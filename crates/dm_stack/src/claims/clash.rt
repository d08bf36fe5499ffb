//! A clash of two claims of a stack.

use crate::id::{DeviceId, Lower};

/// A sector of a device or a disk that two claims include but may not share; both claims may be of one device.
#[derive(Clone, Copy, Debug, PartialEq, Eq, Drop)]
pub struct Clash {
    pub lower: Lower,
    /// The least sector that both claims include.
    pub sector: u64,
    /// The device of the claim that comes first in the stack's order; `second` is the device of the other claim.
    pub first: DeviceId,
    pub second: DeviceId,
}
