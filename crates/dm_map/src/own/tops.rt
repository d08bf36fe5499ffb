//! A law that no write to a top device changes what another top device reads.
//!
//! A top device is one that no line of the stack refers to. If no claims clash, each top device is like a disk of
//! its own: a write changes what is read from the written sector and from no other sector of any top device,
//! whatever chunks the write copies first. Any sector may become an error if its snapshot is lost.

ghost use Rattle.dm_map.specs.Prelude.{ℕ, Device, IsTidy, IsTop, IsFitting, IsOwnWrite, write, State, start_state};

use dm_stack::Stack;

/// States what the write of one sector of a top device does, in a stack without clashing claims and any state
/// that the stack can be in. Before the last unit of the write, no top device reads differently, even if the
/// write is halted; the value that the last unit writes is then read at that sector and at no other sector of a
/// top device. Values are of any type. The function does nothing; its contract is the law.
#[tactic(auto, using(crate::proofs::own::OwnWrites::own_write, crate::proofs::own::OwnWrites::start_fits))]
pub fn tops_are_alone<V>(stack: &Stack)
    ensures start { IsFitting stack.now (start_state stack.now) }
    ensures own { (zeros : V) (written : ℕ → V) (state : State) (top sector : ℕ)
        → IsTidy stack.now → IsFitting stack.now state → IsTop stack.now top
        → IsOwnWrite zeros written stack.now state top sector
        (write stack.now state (Device top) sector) }
{
    // The contract of `depth` states that the stack is sound.
    stack.depth();
}
