//! Trees that are kept, and such as are needed no more. Crates above hand their trees to these functions, and so prove
//! no drop of a tree.
ghost use Rattle.std.specs.Prelude.{◌≡◌, [], ◌∷◌, ◌++◌, OnOk, OnErr};

use ec_grammar::Tree;
use ec_space::{NoMemory, Seq};

/// Appends a tree. Where memory runs out, the tree is dropped and the list stays as it was.
pub fn append(trees: &mut Seq<Tree>, tree: Tree) -> Result<(), NoMemory>
    ensures appended { OnOk result (trees.new.items ≡ trees.old.items ++ tree ∷ []) }
    ensures kept { OnErr result (trees.new.items ≡ trees.old.items) }
{
    trees.push(tree)
}

/// Takes trees that are needed no more.
pub fn discard(_trees: Seq<Tree>) {}

/// Takes a tree that is needed no more.
pub fn discard_tree(_tree: Tree) {}
