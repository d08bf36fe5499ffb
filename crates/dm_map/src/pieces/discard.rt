//! A sink that ignores all pieces, for requests that are mapped only to change the state.

use crate::pieces::piece::Piece;
use crate::pieces::sink::Sink;
use dm_stack::Stack;

/// A sink that accepts every piece and does nothing with it.
#[derive(Drop)]
pub struct Discard<'s> {
    pub stack: &'s Stack,
}

impl Sink for Discard<'_> {
    ghost use Rattle.std.specs.Prelude.{◌^◌};

    type Fault = ();

    ghost past = { record {
      view = λ sink. record {
        stack = sink.stack.now;
        room = 2 ^ 64;
        faults = 0;
      };
      took = λ old units new. Unit {0};
      left = λ old units new. ⊥;
    } };

    /// Ignores the piece, and never fails.
    fn piece(&mut self, _piece: Piece) -> Result<(), ()> {
        Ok(())
    }

    ghost lawful = { record {
      nothing = λ s. tt;
      took = λ a b c us vs first second. tt;
      left = λ a b c us vs first second. second;
    } };
}
