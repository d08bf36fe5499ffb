//! The check for devices and disks of length 0, and the end of a device.
//!
//! A table starts at sector 0, and each line starts where the line before ends (dmsetup(8)); `lines` checks both.
//! So a device ends where its last line does; if you change this rule, change `end_of` of the specs, too.

ghost use Rattle.dm_stack.specs.Prelude.{None, flat_map, result_err, first_or, end_of, HaveSmallEnds, empty, empty_in};
ghost use Rattle.std.specs.Prelude.{◌≡◌};

use crate::checks::faults::{check_each, refuse};
use crate::lines::resolved::Resolved;
use dm_table::{Line, LoadFault, LoadKind};

/// Fails with the first fault found among devices without lines and lines of length 0, or else at the first disk
/// of length 0.
///
/// Cost: a walk over the disks.
pub(crate) fn check_lengths(stack: &Resolved, first: Option<LoadFault>) -> Result<(), LoadFault>
    requires { first ≡ first_or (flat_map empty_in stack.now.devices) None }
    ensures { result_err result ≡ first_or (empty stack.now) None }
{
    refuse(first)?;
    check_each(LoadKind::Empty, stack.disks(), |disk| disk.len == 0)
}

/// The sector after the last one of a device, which is the end of its last line.
pub(crate) fn end_of(lines: &[Line]) -> u64
    requires { HaveSmallEnds lines.now }
    ensures { result ≡ end_of lines.now }
{
    match lines.last() {
        Some(line) => line.start + line.len,
        None => 0,
    }
}
