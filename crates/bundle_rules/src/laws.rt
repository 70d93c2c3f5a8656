//! The laws on joined modules. The functions here do nothing: each has a law as its contract.

ghost use Rattle.bundle_rules.specs.Laws.{BundlesHaveNoFault, BundlesKeepBindings, BundlesKeepPrivateNames, ModulesShareNoBinding};
ghost use Rattle.bundle_rules.specs.Moves.{JoiningMovesPlaces};

/// The law that the places of modules one after another are theirs, in order, each with what holds where it
/// stands: only the numbers of nodes, scopes and class bodies are moved, by those of the modules before, and
/// the root's scope is shared.
pub fn joining_moves_places()
    ensures { JoiningMovesPlaces }
{}

/// The law that every place of a module has in the joined one the binding that it has in its own, moved, or none
/// in both.
pub fn bundles_keep_bindings()
    ensures { BundlesKeepBindings }
{}

/// The same law of private names.
pub fn bundles_keep_private_names()
    ensures { BundlesKeepPrivateNames }
{}

/// The law that modules without a fault have none together.
pub fn bundles_have_no_fault()
    ensures { BundlesHaveNoFault }
{}

/// The law that the bindings of each module are among its own nodes in the joined one, past those of the modules
/// before, and those of its private names: so no two modules have places of one binding.
pub fn modules_share_no_binding()
    ensures { ModulesShareNoBinding }
{}
