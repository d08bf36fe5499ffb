//! Laws of read errors: what causes them, and that no read fails if every store is large enough.

ghost use Rattle.dm_map.specs.Prelude.{AreAlwaysExact, AreNeverLost, HaveCauses};

use dm_stack::Stack;

/// States why reads fail and snapshots are lost, in any state of the stack, even with clashing claims. A read
/// within its device fails exactly if its path reaches an `error` line or a lost snapshot. A snapshot is lost
/// exactly if a write to it, or to its origin through the origin's device, must copy a chunk but finds the store
/// full or an unreadable sector in the chunk; a store of kind `K` can be found full only by a write to the
/// origin. A lost snapshot stays lost. After a request, or its first sectors, the state again fits the stack. The
/// function does nothing; its contract is the law.
pub fn errors_have_causes(stack: &Stack)
    ensures { HaveCauses stack.now }
{
    // The contract of `depth` states that the stack is sound.
    stack.depth();
}

/// States that in a stack without `error` lines, in which each store has room for all chunks of its snapshot, no
/// snapshot is ever lost and no read within its device fails. If no claims clash either, each sector of a top
/// device reads as it would if the device had a disk of its own: at the start, after each request, and after any
/// number of a request's first operations. The function does nothing; its contract is the law.
pub fn nothing_is_lost<V>(stack: &Stack)
    ensures lost { AreNeverLost stack.now }
    ensures exact { AreAlwaysExact V stack.now }
{
    // The contract of `depth` states that the stack is sound.
    stack.depth();
}
