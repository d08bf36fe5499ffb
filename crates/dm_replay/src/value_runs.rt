//! Consecutive runs of answers, each as long as possible.

ghost use Rattle.dm_replay.specs.Prelude.{[], OnOk, AreMaximal, flat, run_answers, run_len};
ghost use Rattle.std.specs.Prelude.{◌≡◌, ◌<◌, ◌++◌};

use crate::value_run::ValueRun;
use std::alloc::{AllocError, Global};
use std::marker::Model;

/// Runs, none of which is empty or continues the one before it.
#[derive(Drop)]
pub(crate) struct ValueRuns {
    runs: Vec<ValueRun>,
}

impl Model for ValueRuns {
    ghost use Rattle.dm_replay.specs.Base.{List, ValueRun};
    ghost use Rattle.dm_replay.specs.Runs.{AreMaximal};

    ghost Value = { List ValueRun };

    ghost view = { λ all. all.runs.items };

    ghost invariant = { λ all. AreMaximal all.runs.items };
}

impl ValueRuns {
    /// A `ValueRuns` without runs. Allocates nothing.
    pub(crate) fn new(alloc: Global) -> ValueRuns
        ensures { result ≡ [] }
    {
        ValueRuns {
            runs: Vec::new(alloc),
        }
    }

    /// Adds a run at the end. If it continues the last run, the two become one.
    ///
    /// # Errors
    ///
    /// `AllocError` when out of memory, or if the joined run would have 2^64 sectors or more.
    pub(crate) fn add(&mut self, run: ValueRun) -> Result<(), AllocError>
        requires { 0 < run_len run }
        ensures { OnOk result (flat self.new ≡ flat self.old ++ run_answers run) }
    {
        let Some(last) = self.runs.pop() else {
            self.runs.push(run)?;
            return Ok(());
        };
        if !last.joins(&run) {
            self.runs.push(last)?;
            self.runs.push(run)?;
            return Ok(());
        }
        let Some(len) = last.len().checked_add(run.len()) else {
            return Err(AllocError);
        };
        self.runs.push(last.with_len(len))?;
        Ok(())
    }

    /// Returns the runs. Allocates nothing.
    pub(crate) fn into_vec(self) -> Vec<ValueRun>
        ensures runs { result.items ≡ self }
        ensures maximal { AreMaximal result.items }
    {
        self.runs
    }
}
