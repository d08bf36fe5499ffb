//! A sink that keeps all pieces in a list.
//!
//! The list is for callers that want all pieces of a request at once, such as tests. No pieces are joined, so the
//! list contains exactly what was handed over, and its laws are the simplest that a sink can have.

ghost use Rattle.dm_map.specs.Prelude.{[]};
ghost use Rattle.std.specs.Prelude.{◌≡◌};

use crate::pieces::piece::Piece;
use crate::pieces::sink::Sink;
use dm_stack::Stack;
use dm_table::Tally;
use std::alloc::{AllocError, Global};
use std::marker::Model;

/// The pieces handed over so far, in order.
#[derive(Drop)]
pub struct PieceList<'s> {
    stack: &'s Stack,
    pieces: Vec<Piece>,
    faults: Tally,
}

impl<'s> Model for PieceList<'s> {
    ghost use Rattle.dm_map.specs.pieces.PieceList.{PieceListView};

    ghost Value = { PieceListView };

    ghost view = { λ list. record
        { stack = list.stack.now; pieces = list.pieces.items; faults = list.faults } };
}

impl<'s> PieceList<'s> {
    /// Makes an empty list for a mapper of this stack. Allocates no memory.
    pub fn new(alloc: Global, stack: &'s Stack) -> PieceList<'s>
        ensures stack { result.stack ≡ stack.now }
        ensures pieces { result.pieces ≡ [] }
        ensures faults { result.faults ≡ 0 }
    {
        PieceList {
            stack,
            pieces: Vec::new(alloc),
            faults: Tally::new(),
        }
    }

    /// The pieces in the order in which they were handed over.
    pub fn as_slice(&self) -> &[Piece]
        ensures { result.now ≡ self.now.pieces }
    {
        self.pieces.as_slice()
    }
}

impl Sink for PieceList<'_> {
    ghost use Rattle.dm_map.specs.pieces.PieceList.{Appends};
    ghost use Rattle.dm_map.specs.pieces.Sink.{OfBeginning};
    ghost use Rattle.dm_map.specs.laws.PieceLists.{appends_nothing, appends_both, appends_beginning};
    ghost use Rattle.std.specs.Prelude.{◌^◌};

    type Fault = AllocError;

    ghost past = { record {
      view = λ list. record {
        stack = list.stack;
        room = 2 ^ 64;
        faults = list.faults;
      };
      took = Appends;
      left = OfBeginning Appends;
    } };

    /// Appends the piece; if memory runs out, the list stays as it is.
    fn piece(&mut self, piece: Piece) -> Result<(), AllocError> {
        match self.pieces.push(piece) {
            Ok(()) => Ok(()),
            Err(_) => {
                self.faults.raise();
                Err(AllocError)
            }
        }
    }

    ghost lawful = { record {
      nothing = appends_nothing;
      took = appends_both;
      left = appends_beginning;
    } };
}
