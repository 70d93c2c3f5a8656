//! The laws on names that are in use together. The functions here do nothing: each has a law as its contract.

ghost use Rattle.scope_rules.specs.FunctionNames.{FunctionNamesStandApart};
ghost use Rattle.scope_rules.specs.Separation.{NamesSeparate};

/// The law of separation: in a tree without a crossing, where a binding is live in the home of another
/// and the two have one name, one is a function-name and the other its shadower. That a function has
/// one name at most is a premise, as it is so in every tree that is read.
pub fn names_separate()
    ensures { NamesSeparate }
{}

/// The law that no two function-names have one home, where each function expression has one Identifier as
/// its name, or none.
pub fn function_names_stand_apart()
    ensures { FunctionNamesStandApart }
{}
