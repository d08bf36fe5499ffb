//! Reads LVM2 configuration text, as vgcfgbackup(8) writes it (lvm.conf(5)).
//! The entry point is `parse`, whose contract says which texts are accepted; the modules are the steps from bytes
//! to a tree. To change the grammar of the texts, change `specs/` first.
#![tactic(auto)]

ghost use Rattle.lvm_text.specs.Prelude.{ℕ, List, Ok, Err, IfOk, IfErr, Tree, Describes, HasFault, Answers, TextFault, Memory};
ghost use Rattle.std.specs.Prelude.{◌≡◌, ◌≢◌, ◌⊎◌};

mod build;
mod check;
mod element;
mod fault;
mod index;
mod lexer;
mod lookup;
mod number;
mod reading;
mod scan;
mod syntax;
#[cfg(test)]
mod tests;
mod token;
mod tree;

pub use fault::TextFault;
pub use lookup::Sections;
pub use reading::end_line;
use std::alloc::Global;
pub use tree::{Node, Scalar, Section, Value};

/// Reads a text as a tree, or returns its fault.
///
/// The checks `Token`, `Syntax`, `Deep`, `Number` and `KeyTwice` run in this order, each over the whole text, and
/// the first that finds any fault reports its first line. `Memory` is returned only if an
/// allocation was refused. Keys and strings are slices of the text; a string keeps its backslashes.
///
/// Cost: each byte is read a bounded number of times; a key costs at most 8 comparisons with the first keys of
/// its section and about `log n` comparisons with the `n` others. The grammar is that of lvm.conf(5) and
/// vgcfgbackup(8).
pub fn parse(alloc: Global, text: &str) -> Result<Section<'_>, TextFault>
    // An accepted text describes the tree returned; each text that describes a tree is accepted unless memory runs out.
    ensures accepted { IfOk result (Describes text.now) }
    ensures only { (t : Tree) → Describes text.now t → Answers result (Ok t) }

    // A refused text has the fault returned; each text that has a fault is refused for it unless memory runs out.
    ensures fault { IfErr result (λ f. f ≢ Memory → HasFault text.now f) }
    ensures only_fault { (f : TextFault) → HasFault text.now f → Answers result (Err f) }
{
    reading::read(alloc, text)
}

/// A theorem: every text describes exactly one tree or has exactly one fault, and never both.
pub fn one_answer()
    ensures every { (text : List ℕ) → ((t : Tree) × Describes text t) ⊎ ((f : TextFault) × HasFault text f) }
    ensures tree { (text : List ℕ) (t u : Tree) → Describes text t → Describes text u → t ≡ u }
    ensures fault { (text : List ℕ) (f g : TextFault) → HasFault text f → HasFault text g → f ≡ g }
    ensures not_both { (text : List ℕ) (t : Tree) (f : TextFault) → Describes text t → ¬ (HasFault text f) }
{}
