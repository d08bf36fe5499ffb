//! The checks of a list of image paths: each path is for a disk of the stack, and no disk has two paths.

ghost use Rattle.dm_stack.specs.Prelude.{IfErr, None, OnOk, Some, result_err, Memory, Unknown, Source, IsMemoryFault, faults_by, first_fault, first_or, is_unknown_path, path_faults};
ghost use Rattle.std.specs.Prelude.{◌≡◌, ◌≢◌};

use crate::checks::faults::check_each;
use crate::checks::names::index_of;
use crate::stack::Stack;
use dm_table::{DiskPath, LoadFault, LoadKind};
use std::alloc::Global;

/// Fails at the first path for a disk that an earlier path is for, or else at the first path for a disk that the
/// stack doesn't have.
///
/// Cost: near-linear, with memory for a copy of each name. Fails with `Memory` if memory runs out.
pub fn check_paths(alloc: Global, stack: &Stack, paths: &[DiskPath]) -> Result<(), LoadFault>
    ensures passed { OnOk result (first_fault (path_faults stack.now paths.now) ≡ None) }
    ensures fault { IfErr result (λ fault. fault.kind ≢ Memory
        → first_fault (path_faults stack.now paths.now) ≡ Some fault) }
    ensures memory { IfErr result (λ fault. fault.kind ≡ Memory → IsMemoryFault Source fault) }
{
    let _names = index_of(alloc, paths)?;
    check_known(stack, paths)
}

/// Fails at the first path for a disk that the stack doesn't have.
fn check_known(stack: &Stack, paths: &[DiskPath]) -> Result<(), LoadFault>
    ensures { result_err result
        ≡ first_or (faults_by Unknown (λ path. path.at) (is_unknown_path stack.now) paths.now) None }
{
    check_each(
        LoadKind::Unknown,
        paths,
        |path| is_unknown_path(stack, path),
    )
}

/// Whether the path is for a disk that the stack doesn't have.
fn is_unknown_path(stack: &Stack, path: &DiskPath) -> bool
    ensures { result ≡ is_unknown_path stack.now path.now }
{
    stack.disk(path.disk.as_str()).is_none()
}
