//! A law that each top device is like a disk of its own, whichever devices requests access.

ghost use Rattle.dm_map.specs.Prelude.{AreAlone};

use dm_stack::Stack;

/// States that in a stack without clashing claims, each sector of a top device reads as it would if the device
/// had a disk of its own, which only its own writes change, or as an error: at the start, after each request, and
/// after any number of a request's first units. The state after units is the one after the sectors that they
/// complete, which are no more than the request has. The function does nothing; its contract is the law.
pub fn requests_are_alone<V>(stack: &Stack)
    ensures { AreAlone V stack.now }
{
    // The contract of `depth` states that the stack is sound.
    stack.depth();
}
