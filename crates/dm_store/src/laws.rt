//! Laws about what a store holds, about the state that a stack's stores hold, and about restarts. The functions do
//! nothing; the contract of each is a law.

ghost use Rattle.dm_store.specs.Prelude.{AlwaysFit, AlwaysHaveRows, AlwaysStart, AreAllFound, AreListsEnough, AreListsRead, AreListsSaid, IsAlwaysExact, IsAlwaysFound, IsSpelled, ReadsBack};

use crate::store::Store;
use dm_stack::Stack;

/// States that the chunks read from a store are never more than the store has room for, and that none occurs twice,
/// whatever the store's sectors contain.
pub fn stores_fit(store: &Store)
    ensures { AlwaysFit store.now }
{}

/// States that reading a store returns exactly the chunks that the store's sectors spell.
pub fn reads_back(store: &Store)
    ensures { ReadsBack store.now }
{}

/// States that a store's sectors spell exactly the chunks that reading the store returns.
pub fn is_spelled(store: &Store)
    ensures { IsSpelled store.now }
{}

/// States that the stores hold a state that the stack can be in, whatever the disks contain, unless a store is refused.
/// In that state, each snapshot took only chunks of its own, none twice, and is lost exactly if its store says so. So
/// the laws `errors_have_causes` and `nothing_is_lost` of `dm_map` hold from that state on; so does
/// `requests_are_alone` if each top device's row starts as what the device reads as then. `nothing_is_lost` needs an
/// ample stack and no store that marks its snapshot as lost.
pub fn stored_states_fit<V>(stack: &Stack)
    ensures start { AlwaysStart stack.now }
    ensures rows { AlwaysHaveRows V stack.now }
{
    // The contract of `depth` ensures that the stack is sound.
    stack.depth();
}

/// States what a restart finds after the power was cut during requests to top devices, if no claims clash and each
/// snapshot's store keeps a list. Units must have reached the disks whole and in order, but chunks may have been copied
/// before the writes that need them. Each store must list the chunks that its snapshot took until the cut, or mark the
/// snapshot as lost, for whatever reason. Then reading the stores returns what lists keep of the state at the cut, and
/// each sector of a top device reads as at the start, as last written, or as an error. There are no errors if the stack
/// is ample and no store marks its snapshot as lost.
///
/// Reading the stores shows whether they agree with a state: they do if the result is what lists keep of the state,
/// whatever the sectors that weren't read contain.
pub fn restarts(stack: &Stack)
    ensures back { AreListsRead stack.now }
    ensures said { AreListsSaid stack.now }
    ensures enough { AreListsEnough stack.now }
    ensures found { IsAlwaysFound stack.now }
    ensures exact { IsAlwaysExact stack.now }
{
    // The contract of `depth` ensures that the stack is sound.
    stack.depth();
}

/// States the same as `restarts` for any number of power cuts, each followed by a restart and more requests: each time,
/// reading the stores returns what lists keep of the state, and each sector of a top device reads as last written or as
/// an error.
pub fn restarts_go_on(stack: &Stack)
    ensures { AreAllFound stack.now }
{
    // The contract of `depth` ensures that the stack is sound.
    stack.depth();
}
