//! A law that requests to top devices neither read nor write the lists of stores.

ghost use Rattle.dm_map.specs.Prelude.{LeaveLists};

use dm_stack::Stack;

/// States that if no claims clash, no request to a top device writes to the header or a metadata area of a store,
/// even if it is halted part-way, and no read of a top device reads one. So a list changes only when its store
/// records a chunk. The function does nothing; its contract is the law.
pub fn lists_are_left<V>(stack: &Stack)
    ensures { LeaveLists V stack.now }
{
    // The contract of `depth` states that the stack is sound.
    stack.depth();
}
