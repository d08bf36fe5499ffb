//! Runs of answers, written as lines to an output.

ghost use Rattle.dm_replay.specs.Prelude.{length, decimal, AllByRecursion, IsPut, Wrote, code, IsRunOf, run_line, run_text, runs_text};
ghost use Rattle.std.specs.Prelude.{◌++◌, ◌+◌, ◌≤◌, ◌∷◌};

use crate::value_run::ValueRun;
use dm_stack::Stack;
use dm_table::{OutFault, Output, Text, put_bytes, put_digits};
use std::marker::Model;

/// The line of a run of answers, with the request's number. `stack` has the names of the disks.
#[derive(Drop)]
struct RunLine<'a> {
    stack: &'a Stack,
    number: u64,
    run: &'a ValueRun,
}

impl<'a> Model for RunLine<'a> {
    ghost use Rattle.dm_replay.specs.Base.{ℕ, List, length};
    ghost use Rattle.dm_replay.specs.OfDisks.{IsRunOf};
    ghost use Rattle.dm_replay.specs.RunText.{run_line};

    ghost Value = { List ℕ };

    ghost view = { λ line. run_line line.stack.now line.number line.run.now };

    ghost invariant = { λ line. IsRunOf (length line.stack.now.disks) line.run.now };
}

impl<'a> Text for RunLine<'a> {
    ghost text = { λ line. line };

    fn put_into(&self, block: &mut [u8], at: usize) -> usize {
        let at = put_digits(block, at, self.number);
        let at = put_bytes(block, at, b" ");
        let at = put_run(block, at, self.stack, self.run);
        put_bytes(block, at, b"\n")
    }
}

/// Puts a run at offset `at` of a block, and returns the offset after it.
fn put_run(block: &mut [u8], at: usize, stack: &Stack, run: &ValueRun) -> usize
    requires room { at + 400 ≤ length block.old }
    requires disks { IsRunOf (length stack.now.disks) run.now }
    ensures put { IsPut (run_text stack.now run.now) at block.old block.new result }
    ensures few { result ≤ at + 350 }
{
    match *run {
        ValueRun::Old { disk, start, len } => {
            let at = put_bytes(block, at, b"old ");
            let at = put_bytes(block, at, stack.disk_name(disk).as_bytes());
            put_range(block, at, start, len)
        }
        ValueRun::Wrote {
            request,
            start,
            len,
        } => {
            let at = put_bytes(block, at, b"wrote ");
            let at = put_digits(block, at, request);
            put_range(block, at, start, len)
        }
        ValueRun::Zero { len } => {
            let at = put_bytes(block, at, b"zero ");
            put_digits(block, at, len)
        }
        ValueRun::Error { len } => {
            let at = put_bytes(block, at, b"error ");
            put_digits(block, at, len)
        }
    }
}

/// Puts a start and a length at offset `at` of a block, each after a space, and returns the offset after them.
fn put_range(block: &mut [u8], at: usize, start: u64, len: u64) -> usize
    requires room { at + 60 ≤ length block.old }
    ensures put { IsPut (code " " ∷ decimal start ++ code " " ∷ decimal len) at block.old block.new result }
    ensures few { result ≤ at + 42 }
{
    let at = put_bytes(block, at, b" ");
    let at = put_digits(block, at, start);
    let at = put_bytes(block, at, b" ");
    put_digits(block, at, len)
}

/// Writes the answers of the request with this number, a line for each run: `N old DISK START LEN`, `N wrote K START
/// LEN`, `N zero LEN` or `N error LEN`.
///
/// The runs name only disks of the stack. If a write fails, only a prefix of the text is written, and the write isn't
/// tried again. Makes one write for each line. Allocates nothing.
pub fn write_runs<W: Output>(
    stack: &Stack,
    number: u64,
    runs: &[ValueRun],
    writer: &mut W,
) -> Result<(), OutFault>
    requires { AllByRecursion (IsRunOf (length stack.now.disks)) runs.now }
    ensures { Wrote (W.past writer.old) (W.past writer.new) result (runs_text stack.now number runs.now) }
{
    for run in runs {
        write_run(stack, number, run, &mut *writer)?;
    }
    Ok(())
}

/// Writes the line of one run.
fn write_run<W: Output>(
    stack: &Stack,
    number: u64,
    run: &ValueRun,
    writer: &mut W,
) -> Result<(), OutFault>
    requires { IsRunOf (length stack.now.disks) run.now }
    ensures { Wrote (W.past writer.old) (W.past writer.new) result (run_line stack.now number run.now) }
{
    writer.put(&RunLine { stack, number, run })
}
