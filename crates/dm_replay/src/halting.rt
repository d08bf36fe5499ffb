//! The halting player: a sink that plays a given number of units, and fails at the next one.
//!
//! A halting player owns its player while a request is mapped: after the sink fails, only the sink knows what was
//! played, so the sink's relations are about its own player.

ghost use Rattle.dm_replay.specs.Prelude.{true, false, OnErr, OnOk, IsOnDisks, piece_len, units_of, HasHalted, HasTaken};
ghost use Rattle.std.specs.Prelude.{◌≡◌, ◌<◌, ◌≤◌};

use crate::player::Player;
use dm_map::{Piece, Sink};

/// Plays at most `left` units of pieces on the disks of a stack.
#[derive(Drop)]
pub(crate) struct Halting<'s> {
    pub player: Player<'s>,
    /// How many more units may be played.
    pub left: u64,
    /// Whether the player failed because it got more units than `left`; all units it had left were played before that.
    pub halted: bool,
}

impl<'s> Halting<'s> {
    /// A halting player that plays at most `units` units, with `player`.
    pub(crate) fn new(player: Player<'s>, units: u64) -> Halting<'s>
        ensures player { result.player ≡ player.entry }
        ensures left { result.left ≡ units }
        ensures going { result.halted ≡ false }
    {
        Halting {
            player,
            left: units,
            halted: false,
        }
    }

    /// Returns the inner player with all that it has played. Allocates nothing.
    pub(crate) fn into_player(self) -> Player<'s>
        ensures { result ≡ self.entry.player }
    {
        self.player
    }

    /// Plays a piece. Fails if the piece has more units than are left, or when out of memory.
    fn play(&mut self, piece: Piece) -> Result<(), ()>
        requires some { 1 ≤ piece_len piece }
        requires lies { IsOnDisks self.old.player.stack.now piece }
        ensures took { OnOk result (HasTaken self.old (units_of piece) self.new) }
        ensures left { OnErr result (self.old.halted ≡ false → self.new.halted ≡ true
            → HasHalted self.old (units_of piece) self.new) }
        ensures faults { self.new.player.faults ≡ self.old.player.faults }
    {
        if self.left < piece.len() {
            self.halt(piece);
            return Err(());
        }
        let Ok(()) = self.player.play(piece) else {
            return Err(());
        };
        self.left -= piece.len();
        Ok(())
    }

    /// Plays the units that are left, from the front of a piece that has more. Sets `halted`, unless memory runs out.
    fn halt(&mut self, piece: Piece)
        requires lies { IsOnDisks self.old.player.stack.now piece }
        requires more { self.old.left < piece_len piece }
        ensures halted { self.old.halted ≡ false → self.new.halted ≡ true
            → HasHalted self.old (units_of piece) self.new }
        ensures faults { self.new.player.faults ≡ self.old.player.faults }
    {
        if self.left == 0 {
            self.halted = true;
            return;
        }
        let front = piece.with_len(self.left);
        match self.player.play(front) {
            Ok(()) => self.halted = true,
            Err(_) => {}
        }
    }
}

impl Sink for Halting<'_> {
    ghost use Rattle.dm_replay.specs.Base.{true, false, ◌∙◌};
    ghost use Rattle.dm_replay.specs.Halting.{HasHalted, HasTaken};
    ghost use Rattle.dm_replay.specs.laws.Halt.{taken_both, taken_halted, taken_nothing};
    ghost use Rattle.std.specs.Prelude.{◌^◌, ◌≡◌};

    type Fault = ();

    ghost past = { record {
      view = λ sink. record {
        stack = sink.player.stack.now;
        room = 2 ^ 64;
        faults = sink.player.faults;
      };
      took = HasTaken;
      left = λ old units new. old.halted ≡ false → new.halted ≡ true → HasHalted old units new;
    } };

    /// Plays a piece. Fails if the piece has more units than are left, or when out of memory.
    fn piece(&mut self, piece: Piece) -> Result<(), ()> {
        match self.play(piece) {
            Ok(()) => Ok(()),
            Err(()) => {
                self.player.faults.raise();
                Err(())
            }
        }
    }

    ghost lawful = { record {
      nothing = taken_nothing;
      took = taken_both;
      left = λ a b c us vs first second. λ going halted. taken_halted a b c us vs first
          (second (first.halted ∙ going) halted);
    } };
}
