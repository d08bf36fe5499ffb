//! Taken chunks as sorted runs, which are few if chunks are mostly taken in rising order.
//!
//! A run is a range of consecutive chunks that were taken one after the other, so their numbers are consecutive,
//! too. Runs are sorted by chunk and found by binary search; each stores the number of its first chunk.

ghost use Rattle.dm_map.specs.Prelude.{[], None, MatchBool, length, nat_eq, IsDistinct, IsDistinct-prop, binary_digits, AreBegunBy, AreRuns, GoesOn, run_at, run_count, number_in};
ghost use Rattle.std.proofs.Props.{props};
ghost use Rattle.std.specs.Prelude.{◌≡◌, ◌<◌, ◌≤◌, ◌+◌, ◌-◌, ◌^◌, ◌∷◌, ◌++◌};

mod run;
mod search;
#[cfg(test)]
mod tests;

use crate::state::run_taken::run::Run;
use crate::state::run_taken::search::begun_by;
use crate::state::taken::Taken;
use dm_table::{GhostList, Reserved};
use std::alloc::{AllocError, Global};

/// The chunks that a snapshot took, as runs.
///
/// A look-up takes at most as many comparisons as the number of runs has binary digits. `take` lengthens a run or
/// inserts a new one, which moves all later runs. `with_places` reserves all memory.
#[derive(Drop)]
pub struct RunTaken {
    /// The chunks one by one, in the order of taking; exists for proofs only.
    chunks: GhostList<u64>,
    runs: Reserved<Run>,
    count: usize,
    places: usize,
    valid: bool,
    ghost reserved: { places ≤ runs.room },
    ghost small: { places < 2 ^ 64 },
    ghost number: { count ≡ length chunks.items },
    ghost fits: { length chunks.items ≤ places },
    ghost once: { IsDistinct nat_eq chunks.items } by { IsDistinct-prop nat_eq chunks.items },
    ghost counted: { run_count chunks.items ≡ length runs.items },
    ghost kept: { AreRuns runs.items chunks.items } by { Prim.hlevel props },
}

impl RunTaken {
    /// The number of runs: how often a chunk was taken that isn't one more than the chunk taken just before.
    /// Takes constant time.
    pub fn runs(&self) -> usize
        ensures { result ≡ run_count (⟦<RunTaken as Taken>⟧.chunks self.now) }
    {
        self.runs.len()
    }

    /// The number of a taken chunk, counted from 0 in the order of taking, as `find` returns it.
    ///
    /// Adds to `comparisons` how often the chunk was compared with the first chunk of a run: at most once for
    /// each binary digit of the number of runs. The sum stops growing at `u64::MAX`.
    pub fn find_counted(&self, chunk: u64, comparisons: &mut u64) -> Option<usize>
        ensures found { result ≡ number_in chunk (⟦<RunTaken as Taken>⟧.chunks self.now) }
        ensures more { comparisons.old ≤ comparisons.new }
        ensures few { comparisons.new
            ≤ comparisons.old + binary_digits (run_count (⟦<RunTaken as Taken>⟧.chunks self.now)) }
    {
        let runs = self.runs.as_slice();
        let (begun, made) = begun_by(runs, chunk);
        *comparisons = comparisons.saturating_add(made);
        if begun == 0 {
            return None;
        }
        let run = runs[begun - 1];
        let offset = chunk - run.first;
        if offset < run.len {
            Some(run.number + offset as usize)
        } else {
            None
        }
    }
}

/// Whether this chunk, with this number, continues the last run that starts at the chunk or before it.
fn goes_on(runs: &[Run], chunks: &GhostList<u64>, begun: usize, chunk: u64, number: usize) -> bool
    requires kept { AreRuns runs.now chunks.now.items }
    requires number { number ≡ length chunks.now.items }
    requires begun { AreBegunBy runs.now chunk begun }
    ensures { MatchBool result
        (0 < begun × GoesOn (run_at runs.now (begun - 1)) chunk number)
        (0 < begun → GoesOn (run_at runs.now (begun - 1)) chunk number → ⊥) }
{
    if begun == 0 {
        return false;
    }
    let run = runs[begun - 1];
    chunk - run.first == run.len && run.number + run.len as usize == number
}

/// Takes a chunk under the next number: lengthens a run or inserts a new one.
fn take_next(runs: &mut Reserved<Run>, chunks: &GhostList<u64>, chunk: u64, number: usize)
    requires kept { AreRuns runs.old.items chunks.now.items }
    requires number { number ≡ length chunks.now.items }
    requires once { IsDistinct nat_eq chunks.now.items }
    requires fresh { number_in chunk chunks.now.items ≡ None }
    requires room { length runs.old.items < runs.old.room }
    requires small { number + 1 < 2 ^ 64 }
    requires counted { run_count chunks.now.items ≡ length runs.old.items }
    ensures kept { AreRuns runs.new.items (chunks.now.items ++ chunk ∷ []) }
    ensures counted { run_count (chunks.now.items ++ chunk ∷ []) ≡ length runs.new.items }
    ensures room { runs.new.room ≡ runs.old.room }
{
    let (begun, _) = begun_by(runs.as_slice(), chunk);
    if goes_on(runs.as_slice(), chunks, begun, chunk, number) {
        runs[begun - 1].len += 1;
    } else {
        let run = Run {
            first: chunk,
            number,
            len: 1,
        };
        runs.insert(begun, run);
    }
}

impl Taken for RunTaken {
    ghost chunks = { λ taken. taken.chunks.items };

    ghost places = { λ taken. taken.places };

    ghost valid = { λ taken. taken.valid };

    fn with_places(alloc: Global, count: usize) -> Result<RunTaken, AllocError> {
        Ok(RunTaken {
            chunks: GhostList::new(),
            runs: Reserved::from_vec(Vec::with_capacity(alloc, count)?),
            count: 0,
            places: count,
            valid: true,
        })
    }

    fn find(&self, chunk: u64) -> Option<usize> {
        let mut comparisons = 0;
        self.find_counted(chunk, &mut comparisons)
    }

    fn count(&self) -> usize {
        self.count
    }

    fn is_full(&self) -> bool {
        self.count() == self.places
    }

    fn is_valid(&self) -> bool {
        self.valid
    }

    fn take(&mut self, chunk: u64) {
        take_next(&mut self.runs, &self.chunks, chunk, self.count);
        self.chunks.note(&[chunk]);
        self.count += 1;
    }

    fn invalidate(&mut self) {
        self.valid = false;
    }

    ghost fits = { λ taken. taken.fits };

    ghost once = { λ taken. taken.once };
}
