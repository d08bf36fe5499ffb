//! When requests may be read while their answers are written to an output.
//!
//! Whoever sends requests may wait for an answer before sending the next one. So requests must not be read while the
//! output still buffers an answer: `read` requires that the output has passed on all of them. Code that is generic
//! over the requests can only read them through this trait.

ghost use Rattle.dm_stream.specs.Base.{length, IfOk, InputPast, after_read};
ghost use Rattle.std.specs.Prelude.{◌≡◌, ◌≤◌};

use dm_table::{InFault, Input, Output};

/// A source of requests that is read while the answers are written to an output.
pub trait Exchange<W: Output> {
    /// What the requests have delivered so far, as for any input.
    ghost past: { Self → InputPast };

    /// Reads like an input. The read may block, so the output must have passed on all answers.
    fn read(&mut self, answers: &W, buffer: &mut [u8]) -> Result<usize, InFault>
        requires { W.is_out answers.now }
        ensures within { IfOk result (λ n. n ≤ length buffer.new) }
        ensures past { past self.new ≡ after_read (past self.old) result buffer.new };
}

impl<R: Input, W: Output> Exchange<W> for R {
    ghost past = { R.past };

    fn read(&mut self, _answers: &W, buffer: &mut [u8]) -> Result<usize, InFault> {
        Input::read(self, buffer)
    }
}
