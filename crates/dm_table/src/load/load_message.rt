//! The one-line message of a refused load.
//!
//! `specs/load/LoadMessage.antt` fixes the wording, because users match on it. A new kind of fault needs an
//! arm in `kind_word` of that file and in `LoadKind::word`.

ghost use Rattle.dm_table.specs.Prelude.{length, load_message, memory_message};
ghost use Rattle.std.specs.Prelude.{◌≡◌, ◌≤◌};

use crate::load::load_fault::{LoadFault, LoadKind};
use crate::words::number_text::{append, append_number};
use arrayvec::ArrayVec;

/// The message of a refused load, at most 96 bytes including its newline.
pub type LoadMessage = ArrayVec<u8, 96>;

impl LoadFault {
    /// Builds the message of a refused load: the program's name, the part, the kind of fault, and the number
    /// of the fault's place. `Read` and `Long` have no number, and `Memory` has neither number nor part.
    /// Allocates nothing.
    #[tactic(auto, using(crate::proofs::load::FaultLemmas::part_short))]
    pub fn message(self) -> LoadMessage
        ensures { result.items ≡ load_message self }
    {
        let mut text = ArrayVec::new();
        if self.kind == LoadKind::Memory {
            append(&mut text, memory_message());
            return text;
        }
        append(&mut text, b"dmremap: ");
        append(&mut text, self.at.part.word().as_bytes());
        append(&mut text, b": ");
        append(&mut text, self.kind.word().as_bytes());
        match self.kind {
            LoadKind::Read | LoadKind::Long => {}
            _ => {
                append(&mut text, b" at ");
                append_number(&mut text, self.at.number);
            }
        }
        append(&mut text, b"\n");
        text
    }
}

/// The message for running out of memory: one line, with its newline.
pub fn memory_message() -> &'static [u8]
    ensures message { result.now ≡ memory_message }
    ensures short { length result.now ≤ 16 }
{
    b"dmremap: memory\n"
}
