//! The report of `check` on a stack, as text.

ghost use Rattle.dm_stack.specs.Prelude.{IfOk, List, ℕ, string_bytes, IsLower, Description, IsReport, SaysTidiness, lower_text};
ghost use Rattle.std.specs.Prelude.{◌≡◌, ◌++◌};

use crate::id::Lower;
use crate::stack::Stack;
use std::alloc::{AllocError, Global};

/// The report on a stack: lines `devices N`, `disks N` and `depth N`, and then `tidy`, or `clash LOWER SECTOR
/// FIRST SECOND` with the devices of the two claims. LOWER is the name of a disk, or `/dev/mapper/NAME` for a
/// device.
///
/// Fails only when out of memory. Cost: that of `Stack::tidy`.
pub fn check_report(alloc: Global, stack: &Stack) -> Result<String, AllocError>
    ensures text { IfOk result (λ text. IsReport stack.now (string_bytes text)) }
    // A stack has exactly one report.
    ensures one { (description : Description) (text other : List ℕ)
        → IsReport description text → IsReport description other → text ≡ other }
{
    let tidiness = tidiness_text(alloc, stack)?;
    format!(in alloc;
        "devices {}\ndisks {}\ndepth {}\n{}\n",
        stack.device_count(),
        stack.disk_count(),
        stack.depth(),
        tidiness.as_str(),
    )
}

/// The last line of a report, without its newline.
fn tidiness_text(alloc: Global, stack: &Stack) -> Result<String, AllocError>
    ensures { IfOk result (λ text. SaysTidiness stack.now (string_bytes text)) }
{
    let Some(clash) = stack.tidy(alloc)? else {
        return String::from_str(alloc, "tidy");
    };
    let lower = lower_words(stack, clash.lower);
    format!(in alloc;
        "clash {}{} {} {} {}",
        lower.0,
        lower.1,
        clash.sector,
        stack.name(clash.first),
        stack.name(clash.second),
    )
}

/// The text by which a line refers to a lower device or disk, in two parts: the directory, if any, and the name.
fn lower_words(stack: &Stack, lower: Lower) -> (&str, &str)
    requires { IsLower stack.now lower }
    ensures { result.0.now ++ result.1.now ≡ lower_text stack.now lower }
{
    match lower {
        Lower::Device(id) => ("/dev/mapper/", stack.name(id)),
        Lower::Disk(id) => ("", stack.disk_name(id)),
    }
}
