//! The one-line message for a refused head.
//!
//! `specs/Message.antt` fixes the words for faults, because users match on them.

ghost use Rattle.lvm_head.specs.Prelude.{length, fault_word, head_message};
ghost use Rattle.std.specs.Prelude.{◌≡◌, ◌≤◌};

use crate::fault::HeadFault;
use arrayvec::ArrayVec;
use dm_table::{DiskName, append, memory_message};

/// The message for a refused head, at most 282 bytes including its newline.
pub type HeadMessage = ArrayVec<u8, 282>;

impl HeadFault {
    /// The word for this fault in a message.
    fn word(self) -> &'static str
        ensures word { result.now ≡ fault_word self }
        ensures short { length result.now ≤ 10 }
    {
        match self {
            HeadFault::Unread => "read",
            HeadFault::Partitions => "partitions",
            HeadFault::Array => "array",
            HeadFault::Label => "label",
            HeadFault::Header => "header",
            HeadFault::Long => "long",
            HeadFault::Text => "text",
            HeadFault::Differ => "differ",
            HeadFault::Twice => "twice",
            HeadFault::Foreign => "foreign",
            HeadFault::Missing => "missing",
            HeadFault::Ends => "ends",
            HeadFault::Memory => "memory",
        }
    }

    /// The message line: the disk's name, and the word for the fault. `Memory` has a message of its own, which
    /// doesn't name the disk. Allocates nothing.
    #[tactic(auto, using(dm_table::proofs::ByteLemmas::disk_name_len))]
    pub fn message(self, disk: &DiskName) -> HeadMessage
        ensures { result.items ≡ head_message disk.now self }
    {
        let mut text = HeadMessage::new();
        if self == HeadFault::Memory {
            append(&mut text, memory_message());
            return text;
        }
        let name = disk.as_str();
        append(&mut text, b"dmremap: disk ");
        append(&mut text, name.as_bytes());
        append(&mut text, b": ");
        append(&mut text, self.word().as_bytes());
        append(&mut text, b"\n");
        text
    }
}
