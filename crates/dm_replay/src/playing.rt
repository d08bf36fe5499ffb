//! Playing: how the pieces of a request change the values of disks, and what they answer.

ghost use Rattle.dm_replay.specs.Prelude.{OnOk, ReadOf, WriteOf, CopyOf, FillOf, units_in, CanCopyAtOnce, HasPlayed, flat, run_answers, run_len};
ghost use Rattle.std.specs.Prelude.{◌≡◌, ◌+◌, ◌<◌, ◌≤◌, ◌^◌, ◌++◌};

use crate::disk_values::DiskValues;
use crate::range_values::RangeValues;
use crate::value::Value;
use crate::value_run::ValueRun;
use crate::value_runs::ValueRuns;
use dm_stack::DiskId;
use std::alloc::{AllocError, Global};

/// The values of disks, and the request that is being played: its number, the next sector of its device to be answered,
/// and the answers so far.
#[derive(Drop)]
pub(crate) struct Playing {
    pub values: DiskValues,
    pub number: u64,
    pub next: u64,
    pub runs: ValueRuns,
}

impl Playing {
    /// Adds a run, which answers the next sectors of the request.
    ///
    /// # Errors
    ///
    /// `AllocError` when out of memory, or if the number of the next sector would be 2^64 or more.
    pub(crate) fn answer(&mut self, run: ValueRun) -> Result<(), AllocError>
        requires { 0 < run_len run }
        ensures values { OnOk result (self.new.values ≡ self.old.values) }
        ensures runs { OnOk result (flat self.new.runs ≡ flat self.old.runs ++ run_answers run) }
        ensures next { OnOk result (self.new.next ≡ self.old.next + run_len run) }
        ensures small { OnOk result (self.old.next + run_len run < 2 ^ 64) }
        ensures number { OnOk result (self.new.number ≡ self.old.number) }
    {
        let Some(next) = self.next.checked_add(run.len()) else {
            return Err(AllocError);
        };
        self.runs.add(run)?;
        self.next = next;
        Ok(())
    }

    /// Reads sectors of a disk, and adds their values to the answers.
    pub(crate) fn read(&mut self, disk: DiskId, start: u64, len: u64) -> Result<(), AllocError>
        requires small { start + len < 2 ^ 64 }
        ensures { OnOk result (HasPlayed self.old (units_in (ReadOf disk start) len) self.new) }
    {
        let mut at = start;
        let mut left = len;
        while left > 0 {
            let range = self.values.first_values(disk, at, left);
            self.answer(range.first.run(range.len))?;
            at += range.len;
            left -= range.len;
        }
        Ok(())
    }

    /// Writes the next sectors of the request to a disk, and adds them to the answers.
    pub(crate) fn write(&mut self, disk: DiskId, start: u64, len: u64) -> Result<(), AllocError>
        requires some { 0 < len }
        requires small { start + len < 2 ^ 64 }
        ensures { OnOk result (HasPlayed self.old (units_in (WriteOf disk start) len) self.new) }
    {
        let (number, sector) = (self.number, self.next);
        self.answer(ValueRun::Wrote {
            request: number,
            start: sector,
            len,
        })?;
        let first = Value::Wrote {
            request: number,
            sector,
        };
        self.values.store(disk, start, RangeValues { first, len })?;
        Ok(())
    }

    /// Stores zeros in sectors of a disk.
    pub(crate) fn fill(&mut self, disk: DiskId, start: u64, len: u64) -> Result<(), AllocError>
        requires small { start + len < 2 ^ 64 }
        ensures { OnOk result (HasPlayed self.old (units_in (FillOf disk start) len) self.new) }
    {
        let first = Value::Zero;
        self.values.store(disk, start, RangeValues { first, len })?;
        Ok(())
    }

    /// Copies sectors of a disk to another place. The result is that of copying one sector after the other.
    pub(crate) fn copy(
        &mut self,
        disk: DiskId,
        start: u64,
        len: u64,
        to: DiskId,
        to_start: u64,
    ) -> Result<(), AllocError>
        requires small { start + len < 2 ^ 64 }
        requires to_small { to_start + len < 2 ^ 64 }
        ensures { OnOk result (HasPlayed self.old (units_in (CopyOf disk start to to_start) len) self.new) }
    {
        let mut at = start;
        let mut to_at = to_start;
        let mut left = len;
        while left > 0 {
            let part = len_at_once(disk, at, to, to_at, left);
            let range = self.values.first_values(disk, at, part);
            let copied = range.len;
            self.values.store(to, to_at, range)?;
            at += copied;
            to_at += copied;
            left -= copied;
        }
        Ok(())
    }
}

/// How many of `len` sectors can be copied at once: if the target begins inside the source, only those before the
/// target, because the later ones are overwritten before they are read.
fn len_at_once(disk: DiskId, start: u64, to: DiskId, to_start: u64, len: u64) -> u64
    requires { 1 ≤ len }
    ensures some { 1 ≤ result }
    ensures most { result ≤ len }
    ensures at_once { CanCopyAtOnce disk start to to_start result }
{
    if disk == to && start < to_start {
        len.min(to_start - start)
    } else {
        len
    }
}
