//! Faults of checks: the kind of fault, and where in the input the first bad element is.
//!
//! A check that tests elements one by one only decides which are bad; functions of this module build the fault.

ghost use Rattle.dm_stack.specs.Prelude.{ℕ, Bool, IfErr, IfOk, None, FnReturns, FnReturnsAt, result_err, Source, Place, Line, IsMemoryFault, faults_by, first_or, device_faults, ResolvedLine, resolved_line};
ghost use Rattle.std.specs.Prelude.{◌≡◌};
ghost use denote.Ref.{Bor};

use crate::lines::resolved::Resolved;
use crate::lines::resolved_line::ResolvedLine;
use dm_table::{DeviceSpec, Disk, DiskPath, Line, LoadFault, LoadKind, Part, Place};
use std::alloc::AllocError;

/// The fault of a load that ran out of memory.
pub(crate) fn out_of_memory() -> LoadFault
    ensures { IsMemoryFault Source result }
{
    LoadFault::memory(Part::Source)
}

/// The value, or an out-of-memory fault if it could not be allocated.
pub(crate) fn or_out_of_memory<T>(made: Result<T, AllocError>) -> Result<T, LoadFault>
    ensures made { IfOk result (λ value. made ≡ Ok value) }
    ensures memory { IfErr result (λ fault. IsMemoryFault Source fault) }
{
    match made {
        Ok(value) => Ok(value),
        Err(_) => Err(out_of_memory()),
    }
}

/// Fails with the first fault that a check found, or succeeds if there is none.
pub(crate) fn refuse(first: Option<LoadFault>) -> Result<(), LoadFault>
    ensures { result_err result ≡ first }
{
    match first {
        Some(fault) => Err(fault),
        None => Ok(()),
    }
}

/// A device, line, disk or path; its place in the input is reported to the user.
pub(crate) trait Placed {
    ghost place_of: { Self → Place };

    /// Where in the input the element is.
    fn place(&self) -> Place
        ensures { result ≡ place_of self.now };
}

impl Placed for DeviceSpec {
    ghost place_of = { λ device. device.at };

    fn place(&self) -> Place {
        self.at
    }
}

impl Placed for Line {
    ghost place_of = { λ line. line.at };

    fn place(&self) -> Place {
        self.at
    }
}

impl Placed for Disk {
    ghost place_of = { λ disk. disk.at };

    fn place(&self) -> Place {
        self.at
    }
}

impl Placed for DiskPath {
    ghost place_of = { λ path. path.at };

    fn place(&self) -> Place {
        self.at
    }
}

/// Fails with this kind of fault at the first bad element of a list.
pub(crate) fn check_each<T: Placed, F: Fn(&T) -> bool>(
    kind: LoadKind,
    list: &[T],
    is_bad: F,
) -> Result<(), LoadFault>
    requires { F.IsAlwaysCallable is_bad }
    ensures { (test : T → Bool)
        → ((item : T) (bad : Bool) → FnReturnsAt F.Fn is_bad item bad → bad ≡ test item)
        → result_err result ≡ first_or (faults_by kind T.place_of test list.now) None }
{
    for item in list {
        if is_bad(item) {
            let at = item.place();
            return Err(LoadFault { kind, at });
        }
    }
    Ok(())
}

/// Fails with this kind of fault at the first bad line of the stack. The arguments of `is_bad` are the line, the
/// line with ids, and the number of lines in its device.
pub(crate) fn check_by_ids<F: Fn(&Line, &ResolvedLine, usize) -> bool>(
    kind: LoadKind,
    stack: &Resolved,
    is_bad: F,
) -> Result<(), LoadFault>
    requires { F.IsAlwaysCallable is_bad }
    ensures { (test : ℕ → Line → Bool)
        → ((line : Bor Line) (by_ids : Bor ResolvedLine) (count : ℕ) (bad : Bool)
        → FnReturns F.Fn is_bad (line, (by_ids, (count, tt))) bad
        → by_ids.now ≡ resolved_line stack.now line.now → bad ≡ test count line.now)
        → result_err result ≡ first_or (device_faults kind test stack.now) None }
{
    let by_ids = stack.by_ids();
    for (id, device) in stack.devices().iter().enumerate() {
        let resolved = by_ids[id].table.lines();
        let lines = device.lines.as_slice();
        let count = lines.len();
        for (index, line) in lines.iter().enumerate() {
            if is_bad(line, &resolved[index], count) {
                return Err(LoadFault { kind, at: line.at });
            }
        }
    }
    Ok(())
}
