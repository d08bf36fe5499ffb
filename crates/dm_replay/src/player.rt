//! The player: a sink that plays the pieces of a request on the values of disks.
//!
//! The player's relation is about the value of each sector, so the code above doesn't depend on how values are kept.
//! Nothing is promised about a player that failed.

ghost use Rattle.dm_replay.specs.Prelude.{[], OnOk, IsOnDisk, IsOnDisks, piece_len, units_of, HasPlayed, AreMaximal};
ghost use Rattle.std.specs.Prelude.{◌≡◌, ◌+◌, ◌<◌, ◌≤◌, ◌^◌};

use crate::disk_values::DiskValues;
use crate::playing::Playing;
use crate::value_run::ValueRun;
use crate::value_runs::ValueRuns;
use dm_map::{Piece, Sink};
use dm_stack::{DiskId, Stack};
use dm_table::Tally;
use std::alloc::{AllocError, Global};
use std::mem::replace;

/// Plays pieces on the disks of a stack.
#[derive(Drop)]
pub(crate) struct Player<'s> {
    pub stack: &'s Stack,
    pub playing: Playing,
    pub faults: Tally,
}

impl<'s> Player<'s> {
    /// A player on the disks of a stack, with the values at the start. Allocates nothing.
    pub(crate) fn new(alloc: Global, stack: &'s Stack) -> Player<'s>
        ensures stack { result.stack.now ≡ stack.now }
        ensures ranges { result.playing.values.disks.items ≡ [] }
    {
        Player {
            stack,
            playing: Playing {
                values: DiskValues::new(alloc),
                number: 0,
                next: 0,
                runs: ValueRuns::new(alloc),
            },
            faults: Tally::new(),
        }
    }

    /// Sets the number of the next request and the first sector to be answered, and removes earlier answers.
    pub(crate) fn begin(&mut self, alloc: Global, number: u64, first: u64)
        ensures playing { self.new.playing
            ≡ record { values = self.old.playing.values; number = number; next = first; runs = [] } }
        ensures stack { self.new.stack ≡ self.old.stack }
    {
        self.playing.number = number;
        self.playing.next = first;
        self.playing.runs = ValueRuns::new(alloc);
    }

    /// Returns the answers since the request began, and removes them from the player.
    pub(crate) fn take_runs(&mut self, alloc: Global) -> Vec<ValueRun>
        ensures runs { result.items ≡ self.old.playing.runs }
        ensures maximal { AreMaximal result.items }
        ensures values { self.new.playing.values ≡ self.old.playing.values }
        ensures stack { self.new.stack ≡ self.old.stack }
    {
        replace(&mut self.playing.runs, ValueRuns::new(alloc)).into_vec()
    }

    /// Plays a piece: changes the values of disks, and adds the piece's answers.
    pub(crate) fn play(&mut self, piece: Piece) -> Result<(), AllocError>
        requires some { 1 ≤ piece_len piece }
        requires lies { IsOnDisks self.old.stack.now piece }
        ensures played { OnOk result (HasPlayed self.old.playing (units_of piece) self.new.playing) }
        ensures stack { self.new.stack ≡ self.old.stack }
        ensures faults { self.new.faults ≡ self.old.faults }
    {
        match piece {
            Piece::Read { disk, start, len } => {
                recall_length(self.stack, disk, start, len);
                self.playing.read(disk, start, len)
            }
            Piece::Write { disk, start, len } => {
                recall_length(self.stack, disk, start, len);
                self.playing.write(disk, start, len)
            }
            Piece::Zero { len } => {
                self.playing.answer(ValueRun::Zero { len })?;
                Ok(())
            }
            Piece::Drop { len } => {
                self.playing.answer(ValueRun::Zero { len })?;
                Ok(())
            }
            Piece::Error { len } => {
                self.playing.answer(ValueRun::Error { len })?;
                Ok(())
            }
            Piece::Copy {
                disk,
                start,
                len,
                to: target,
                to_start: target_start,
            } => {
                recall_length(self.stack, disk, start, len);
                recall_length(self.stack, target, target_start, len);
                self.playing.copy(disk, start, len, target, target_start)
            }
            Piece::Fill { len, disk, start } => {
                recall_length(self.stack, disk, start, len);
                self.playing.fill(disk, start, len)
            }
        }
    }
}

/// Makes the fact that no disk is longer than 2^50 sectors available to a proof. Does nothing at run time.
fn recall_length(stack: &Stack, disk: DiskId, start: u64, len: u64)
    requires { IsOnDisk stack.now disk start len }
    ensures { start + len ≤ 2 ^ 50 }
{
    prove!(stack.disk_len(disk) <= 1 << 50);
}

impl Sink for Player<'_> {
    ghost use Rattle.dm_replay.specs.Base.{length, refl, subst, ◌∙◌, Description};
    ghost use Rattle.dm_replay.specs.Player.{HasPlayed};
    ghost use Rattle.dm_replay.specs.OfDisks.{AreUnitsOf};
    ghost use Rattle.dm_replay.specs.laws.OfDisks.{units_of-append};
    ghost use Rattle.dm_replay.specs.laws.Play.{played_nothing, played_both};
    ghost use Rattle.std.specs.Prelude.{◌^◌, ◌≡◌};

    type Fault = AllocError;

    ghost past = { record {
      view = λ player. record {
        stack = player.stack.now;
        room = 2 ^ 64;
        faults = player.faults;
      };
      took = λ old units new. HasPlayed old.playing units new.playing
          × AreUnitsOf (length old.stack.now.disks) units × (new.stack.now ≡ old.stack.now);
      left = λ old units new. Unit {0};
    } };

    /// Plays a piece. Fails when out of memory.
    fn piece(&mut self, piece: Piece) -> Result<(), AllocError> {
        match self.play(piece) {
            Ok(()) => Ok(()),
            Err(fault) => {
                self.faults.raise();
                Err(fault)
            }
        }
    }

    ghost lawful = { record {
      nothing = λ s. (played_nothing s.playing, tt, refl);
      took = λ a b c us vs first second. (
        played_both a.playing b.playing c.playing us vs first.0 second.0,
        units_of-append (length a.stack.now.disks) us vs first.1
            (subst (λ (stack : Description). AreUnitsOf (length stack.disks) vs) first.2 second.1),
        second.2 ∙ first.2,
      );
      left = λ a b c us vs first second. tt;
    } };
}
