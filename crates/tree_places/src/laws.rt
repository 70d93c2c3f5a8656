//! The laws on places. The functions here do nothing: each has a law as its contract.

ghost use Rattle.tree_places.specs.Laws.{
  EnclosingNodesTell,
  NumbersRise,
  PlacedTreesAreRooted,
  RenamingMovesNoPlace,
  ScopesAreNearest,
  VarScopesLieOutside,
};

/// The law that renaming moves no place: a tree and the same tree renamed have the same sites, the
/// same scopes, and the same scopes around WithStatements.
pub fn renaming_moves_no_place()
    ensures { RenamingMovesNoPlace }
{}

/// The law that the scope of a place is that of its nearest enclosing node which opens a scope around
/// the field in which the place lies, and that its var scope is the nearest of those in which a `var`
/// may declare; and that a place's number is that of its node among all nodes.
pub fn scopes_are_nearest()
    ensures { ScopesAreNearest }
{}

/// The law that the nodes which enclose a place say which class bodies lie around it, in whose parameters or
/// catch pattern it lies, whether its code is strict, and whether it lies in the declaration of an export.
pub fn enclosing_nodes_tell()
    ensures { EnclosingNodesTell }
{}

/// The law that numbers rise in printing order: those of places, and those of scopes, of which the
/// n-th, from 0, has the number n and lies in an earlier one; and that each place has a name.
pub fn numbers_rise()
    ensures { NumbersRise }
{}

/// The law that the var scope of a place is its scope or one further out.
pub fn var_scopes_lie_outside()
    ensures { VarScopesLieOutside }
{}

/// The law that in a tree whose nodes stand where they may each place lies in a var scope.
pub fn placed_trees_are_rooted()
    ensures { PlacedTreesAreRooted }
{}
