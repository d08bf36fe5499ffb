//! Sinks, to which a mapper hands the pieces of requests.
//!
//! A mapper hands over each piece at once and keeps none, so requests allocate nothing. A sink may join pieces as
//! it likes, because contracts describe units, which are the same however a range is cut into pieces.

ghost use Rattle.dm_map.specs.Prelude.{AreOnDisks, AreHanded, IsHanded, IsLawful, SinkPast, legs_units, units_of, piece_len, diskless_len, IsOnDisks};
ghost use Rattle.std.specs.Prelude.{◌≤◌};

use crate::pieces::piece::{Piece, disk_piece};
use dm_stack::Legs;
use dm_table::Op;

/// Receives the pieces of requests.
pub trait Sink {
    /// Why a piece could not be accepted.
    type Fault: Drop;

    /// What contracts see of a sink: its stack, its room for pieces without a disk, how many pieces it failed at,
    /// and which units it received, or failed at, between two of its states.
    ghost past: { SinkPast Self };

    /// Receives a piece of at least one sector, whose disks are those of the sink's stack. A piece without a disk
    /// must fit into the sink's room, and reduces the room by at most the piece's length; other pieces don't
    /// reduce the room.
    fn piece(&mut self, piece: Piece) -> Result<(), Self::Fault>
        requires some { 1 ≤ piece_len piece }
        requires lies { IsOnDisks (past.view self.old).stack piece }
        requires room { diskless_len piece ≤ (past.view self.old).room }
        ensures { IsHanded past result self.old self.new (units_of piece) (diskless_len piece) };

    /// Receives all legs of a striped line that `legs` has not returned yet, which lie on disks of the sink's
    /// stack. By default each leg becomes a piece, in order; a sink may handle all legs at once, with the same
    /// effect.
    fn disk_legs(&mut self, op: Op, mut legs: Legs<'_>) -> Result<(), Self::Fault>
        requires { AreOnDisks (past.view self.old).stack legs }
        ensures { AreHanded past result self.old self.new (legs_units op legs.entry) }
    {
        'legs: while let Some(leg) = legs.next_leg() {
            let (disk, start) = leg.on_disk();
            self.piece(disk_piece(op, disk, start, leg.len))?;
        }
        Ok(())
    }

    /// Two lists of units received one after the other are one list received.
    ghost lawful: { IsLawful past };
}
