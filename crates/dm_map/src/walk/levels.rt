//! A law of the mapping: the limit on levels of devices never cuts a look-up short.
//!
//! The definitions recurse on a number of levels, so that the recursion ends whatever a stack contains. In a
//! stack that passed its checks, the limit makes no difference, and a change to the mapping must keep this true.

ghost use Rattle.dm_map.specs.Prelude.{AreLevelsEnough};

use dm_stack::Stack;

/// States that reads and writes of a device's sectors are the same, in any state, for every limit on levels that
/// is at least the device's depth, and that the same holds for the homes of a store's sectors. The function does
/// nothing; its contract is the law.
#[tactic(auto, using(crate::proofs::walk::LevelLemmas::reads_free, crate::proofs::walk::LevelLemmas::writes_free, crate::proofs::walk::LevelLemmas::homes_free))]
pub fn levels_are_enough(stack: &Stack)
    ensures { AreLevelsEnough stack.now }
{
    // The contract of `depth` states that the stack is sound.
    stack.depth();
}
