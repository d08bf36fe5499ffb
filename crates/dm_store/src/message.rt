//! The message for a refused store, which is one line.
//!
//! `specs/Message.antt` fixes the words, because users match on them.

ghost use Rattle.dm_store.specs.Prelude.{length, name_at, fault_word, store_message};
ghost use Rattle.std.specs.Prelude.{◌≡◌, ◌<◌, ◌≤◌};

use crate::fault::{ListFault, SectorFault, StoreFault, StoreRefusal};
use arrayvec::ArrayVec;
use dm_stack::Stack;
use dm_table::append;

/// The message for a refused store: at most 152 bytes, including the newline.
pub type StoreMessage = ArrayVec<u8, 152>;

impl StoreFault {
    /// The word for this fault in messages.
    fn word(self) -> &'static str
        ensures word { result.now ≡ fault_word self }
        ensures short { length result.now ≤ 7 }
    {
        match self {
            StoreFault::Unread(SectorFault::Missing) => "missing",
            StoreFault::Unread(SectorFault::Read) => "read",
            StoreFault::Magic => "magic",
            StoreFault::Version => "version",
            StoreFault::Chunk => "chunk",
            StoreFault::Gap => "gap",
            StoreFault::Listed(ListFault::Order) => "order",
            StoreFault::Listed(ListFault::Range) => "range",
            StoreFault::Listed(ListFault::Again) => "again",
        }
    }
}

impl StoreRefusal {
    /// The message: a line with the snapshot's name and the word for the fault. Allocates nothing.
    pub fn message(self, stack: &Stack) -> StoreMessage
        requires { self.snapshot < length stack.now.devices }
        ensures { result.items ≡ store_message (name_at stack.now self.snapshot) self.fault }
    {
        let mut text = StoreMessage::new();
        append(&mut text, b"dmremap: store ");
        append(&mut text, stack.name(self.snapshot).as_bytes());
        append(&mut text, b": ");
        append(&mut text, self.fault.word().as_bytes());
        append(&mut text, b"\n");
        text
    }
}
