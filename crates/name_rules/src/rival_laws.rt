//! The laws on rivals. The functions here do nothing: each has a law as its contract.

ghost use Rattle.name_rules.specs.Rivals.{NoRivalUsesFewer};

/// The law that no rival uses fewer names: in each, the bindings that aren't kept have at least as
/// many different names as groups are live in the busiest scope of the tree that was read.
pub fn no_rival_uses_fewer()
    ensures { NoRivalUsesFewer }
{}
