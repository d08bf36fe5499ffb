//! Why no name can be built for a logical volume or a layer of it, and the message for each reason. Each part is
//! checked for `Empty`, `Letter` and `HyphenFirst`, in this order, and then the whole name for `Long`. A new fault is a
//! variant here, an arm of `part_fault` in `specs/Names` and a word in `specs/NameMessage`.

ghost use Rattle.lvm_volume.specs.Prelude.{name_message};
ghost use Rattle.std.specs.Prelude.{◌≡◌};

use dm_table::memory_message;
use thiserror::Error;

/// Why no name can be built from these parts.
#[derive(Clone, Copy, Debug, PartialEq, Eq, Error)]
pub enum NameFault {
    /// A part contains a byte that isn't allowed in a part, or the layer begins with an underscore.
    #[error("a letter that no part of a name has")]
    Letter,
    /// A part begins with a hyphen.
    #[error("a part begins with a hyphen")]
    HyphenFirst,
    /// A part is empty.
    #[error("an empty part")]
    Empty,
    /// The name has more than 127 bytes.
    #[error("more than 127 bytes")]
    Long,
    /// Memory ran out: an allocation was refused.
    #[error("out of memory")]
    Memory,
}

impl NameFault {
    /// The message for the fault: one line, with its newline. `Memory` has the same message as any command that is out
    /// of memory. Allocates nothing.
    pub fn message(self) -> &'static [u8]
        ensures { result.now ≡ name_message self }
    {
        match self {
            NameFault::Letter => b"dmremap: name: letter\n",
            NameFault::HyphenFirst => b"dmremap: name: hyphen\n",
            NameFault::Empty => b"dmremap: name: empty\n",
            NameFault::Long => b"dmremap: name: long\n",
            NameFault::Memory => memory_message(),
        }
    }
}
