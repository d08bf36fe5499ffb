//! A law of power cuts: which changes that a cut leaves on the disks change nothing that a top device reads.

ghost use Rattle.dm_map.specs.Prelude.{AreCutAlone};

use dm_stack::Stack;

/// States what a power cut may leave on the disks of a stack without clashing claims. Each sector of a top device
/// still reads as last written, or as an error, whatever is in the lists of stores and in places without a taken
/// chunk, such as copies not yet listed. This also holds if any chunks were copied and listed, in any order,
/// ahead of the writes that need them. A kernel does this, because a write waits until its chunks are listed and
/// several snapshots of an origin copy at once. The function does nothing; its contract is the law.
pub fn cuts_are_alone<V>(stack: &Stack)
    ensures { AreCutAlone V stack.now }
{
    // The contract of `depth` states that the stack is sound.
    stack.depth();
}
