//! The message for a sector that has no bytes, which is one line.

ghost use Rattle.dm_read.specs.Prelude.{length, fault_word, stop_message};
ghost use Rattle.std.specs.Prelude.{◌≡◌, ◌≤◌};

use crate::fault::{ByteFault, Stop};
use arrayvec::ArrayVec;
use dm_store::SectorFault;
use dm_table::{append, append_number};

/// The message for a sector that has no bytes, including the newline.
pub type StopMessage = ArrayVec<u8, 64>;

impl ByteFault {
    /// The word for this fault in messages.
    fn word(self) -> &'static str
        ensures word { result.now ≡ fault_word self }
        ensures short { length result.now ≤ 7 }
    {
        match self {
            ByteFault::Error => "error",
            ByteFault::Unread(SectorFault::Missing) => "missing",
            ByteFault::Unread(SectorFault::Read) => "read",
        }
    }
}

impl Stop {
    /// The message: a line with the word for the fault and the number of the device's sector. Allocates nothing.
    pub fn message(self) -> StopMessage
        ensures { result.items ≡ stop_message self }
    {
        let mut text = StopMessage::new();
        append(&mut text, b"dmremap: device: ");
        append(&mut text, self.fault.word().as_bytes());
        append(&mut text, b" at ");
        append_number(&mut text, self.sector);
        append(&mut text, b"\n");
        text
    }
}
