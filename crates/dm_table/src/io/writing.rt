//! Writes all of a slice to an output, in as many writes as the output needs, and flushes it after the last write.
//! An output may accept fewer bytes than it is given, hence the loop, and no byte may be written twice.
//! An iteration of the loop must change nothing but the slice of bytes left.
ghost use Rattle.dm_table.specs.Prelude.{ℕ, List, IsErr, OnErr, OnOk, OutputPast, written_since, IsClosedAfter, Wrote, IsBeginning};
ghost use Rattle.std.specs.Prelude.{◌≡◌, ◌+◌};

use crate::io::device_io::{OutFault, Output};

/// Writes all of the bytes, in order. At a fault only a prefix of the bytes has been written, and nothing is
/// retried. An empty slice causes no write. Allocates nothing.
pub fn write_all<W: Output>(writer: &mut W, bytes: &[u8]) -> Result<(), OutFault>
    ensures wrote { Wrote (W.past writer.old) (W.past writer.new) result bytes.now }
    ensures err { OnErr result
        (IsBeginning bytes.now (written_since (W.past writer.old) (W.past writer.new))) }
{
    let mut rest = bytes;
    while !rest.is_empty() {
        let taken = writer.write(rest)?;
        rest = &rest[taken..];
    }
    Ok(())
}

/// Finishes an output after its last write: flushes it once, unless a write failed.
///
/// # Errors
///
/// `OutFault` if a write failed before, or if the flush fails.
#[tactic(auto, using(crate::proofs::io::WriteLemmas::closed_unflushed, crate::proofs::io::WriteLemmas::closed_flushed))]
pub fn close<W: Output>(written: Result<(), OutFault>, output: &mut W) -> Result<(), OutFault>
    // For every text whose writing had the result `written`, whatever the output's history before that text.
    ensures closed { (start : OutputPast) (text : List ℕ) → Wrote start (W.past output.old) written text
        → IsClosedAfter start (W.past output.new) (IsErr result) text }
    // After a failed write, the output isn't called again.
    ensures untouched { OnErr written (IsErr result × (output.new ≡ output.old)) }
    ensures flushed { OnOk written ((W.past output.new).flushes ≡ (W.past output.old).flushes + 1) }
    ensures bytes { (W.past output.new).written ≡ (W.past output.old).written }
{
    match written {
        Ok(()) => output.flush(),
        Err(OutFault) => Err(OutFault),
    }
}
