//! The law about heads, stated as the contract of a function that does nothing.

ghost use Rattle.lvm_head.specs.Prelude.{ReadsBack};

/// A theorem: reading a head returns exactly the id and the text that the head spells.
pub fn heads_read_back()
    ensures { ReadsBack }
{}
