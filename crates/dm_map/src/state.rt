//! The state that requests leave for later ones: which chunks each snapshot's store holds, how the code keeps
//! these chunks, and how much of each store is used.

pub(crate) mod plain_taken;
pub(crate) mod run_taken;
pub(crate) mod tables;
pub(crate) mod taken;
pub(crate) mod trie_taken;
pub(crate) mod usage;
pub(crate) mod walker;
