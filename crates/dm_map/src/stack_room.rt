//! A check that the process has enough stack memory for programs that map requests.
//!
//! A program that runs out of stack memory is killed by a signal, at any point, so the kernel's limit on the
//! stack is read before anything else is done. A smaller limit on the address space isn't noticed.

use std::fs::File;
use std::io::Read;

/// The smallest limit on stack memory that is enough, in bytes. The deepest stack of devices needs 225 KiB, and
/// the arguments and the environment, which are on the stack, too, use up to 128 KiB if the limit is low.
const LEAST_STACK: u64 = 524_288;

/// The file that lists the limits of this process, one in each line: see `proc_pid_limits(5)`.
const LIMITS: &str = "/proc/self/limits";

/// Whether the limit on stack memory is at least 512 KiB, which is enough for devices at the limit of depth, or
/// can't be read. Programs call this before they do anything else.
#[inline(never)]
pub fn has_stack_room(rt: &HostRuntime) -> bool {
    match stack_limit(rt) {
        Some(limit) => limit >= LEAST_STACK,
        None => true,
    }
}

/// Reads the limit on stack memory, in bytes, from the kernel's table. None if the table can't be read or the
/// limit is infinite.
fn stack_limit(rt: &HostRuntime) -> Option<u64> {
    let mut table = [0; 2048];
    let mut file = File::open(rt, LIMITS).ok()?;
    let length = file.read(&mut table).ok()?;
    let text = str::from_utf8(table.get(..length)?).ok()?;
    let limits = text
        .lines()
        .find_map(|line| line.strip_prefix("Max stack size"))?;
    limits.split_whitespace().next()?.parse().ok()
}
