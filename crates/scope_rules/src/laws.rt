//! The laws on bindings. The functions here do nothing: each has a law as its contract.

ghost use Rattle.scope_rules.specs.Faults.{RedeclarationsStandAtPlaces};
ghost use Rattle.scope_rules.specs.Renamings.{BindingsStay, FaultsAreNeverNew};

/// The law on renaming, over old names of type A and new ones of type B: where the new names keep
/// apart what the old ones did (`KeepsApart`), every place has the binding that it had, or none as before.
pub fn bindings_stay<A, B>()
    ensures { BindingsStay A B }
{}

/// The law on faults, over the same names: where the new names keep apart what the old ones did, the
/// homes lie outside as they do in a tree, and private names keep their bindings, there is no fault of
/// a kind of which there was none.
pub fn faults_are_never_new<A, B>()
    ensures { FaultsAreNeverNew A B }
{}

/// The law on redeclarations, over names of type N: there is one exactly where some place is one after
/// those before it.
pub fn redeclarations_stand_at_places<N>()
    ensures { RedeclarationsStandAtPlaces N }
{}
