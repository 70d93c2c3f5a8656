//! The laws on bound names. The functions here do nothing: each has a law as its contract.

ghost use Rattle.tree_patterns.specs.BoundNames.{BoundNamesAreIdentifiers};
ghost use Rattle.tree_patterns.specs.ByKind.{BindByKind};
ghost use Rattle.tree_patterns.specs.ByRoles.{BoundNamesAreDeclared};

/// The law that bound names agree with the roles of the node table: in whichever role a node stands
/// that declares, its bound names are the Identifiers to which the walk that hands the roles on gives
/// a declaring role, outside the scopes that are opened on the way.
pub fn bound_names_are_declared()
    ensures { BoundNamesAreDeclared }
{}

/// The law that says of each kind of pattern and of declaration from which of its fields its bound
/// names come.
pub fn bound_names_by_kind()
    ensures { BindByKind }
{}

/// The law that each bound name is an Identifier.
pub fn bound_names_are_identifiers()
    ensures { BoundNamesAreIdentifiers }
{}
