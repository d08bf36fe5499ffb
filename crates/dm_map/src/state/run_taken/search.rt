//! Binary search for the run that holds a chunk.
//!
//! Only this search compares a chunk with the first chunks of runs, and each comparison is counted.

ghost use Rattle.dm_map.specs.Prelude.{length, binary_digits, AreBegunBy, AreRuns};
ghost use Rattle.std.specs.Prelude.{◌≤◌};

use crate::state::run_taken::run::Run;

/// How many runs start at the chunk or before it, and with how many first chunks of runs the chunk was compared.
pub(super) fn begun_by(runs: &[Run], chunk: u64) -> (usize, u64)
    ensures begun { AreBegunBy runs.now chunk result.0 }
    ensures few { result.1 ≤ binary_digits (length runs.now) }
{
    let mut low = 0;
    let mut high = runs.len();
    let mut comparisons = 0;
    while low < high {
        let middle = low + (high - low) / 2;
        comparisons += 1;
        if runs[middle].first <= chunk {
            low = middle + 1;
        } else {
            high = middle;
        }
    }
    (low, comparisons)
}
