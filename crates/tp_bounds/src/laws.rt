//! What holds of all bound lines and trees. The calls do nothing: their contracts are the laws.
ghost use Rattle.std.specs.Prelude.{◌≡◌};
ghost use Rattle.tp_bounds.specs.declared.line.BoundLine.{BoundLine};
ghost use Rattle.tp_bounds.specs.declared.tree.BoundTree.{BoundTree};
ghost use Rattle.tp_bounds.specs.Lines.{IsBound, bound_text};
ghost use Rattle.tp_bounds.specs.Trees.{IsTree, tree_text};

/// No line is that of two rows or nodes.
pub fn one_bound_line()
    ensures { (told other : BoundLine) → IsBound told → IsBound other
        → bound_text told ≡ bound_text other → told ≡ other }
{}

/// No text is that of two trees.
pub fn one_tree_text()
    ensures { (tree other : BoundTree) → IsTree tree → IsTree other
        → tree_text tree ≡ tree_text other → tree ≡ other }
{}
