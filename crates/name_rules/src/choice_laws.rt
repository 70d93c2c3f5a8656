//! The law on new names as choices. The function here does nothing: it has the law as its contract.

ghost use Rattle.name_rules.specs.ChosenNames.{ChosenNamesAreNew};

/// The law that the slots and the private numbers of a tree's places choose its new names: a slot that of its
/// name, a private number its short name, which stands behind the names of the slots. Plain names are left.
pub fn chosen_names_are_new()
    ensures { ChosenNamesAreNew }
{}
