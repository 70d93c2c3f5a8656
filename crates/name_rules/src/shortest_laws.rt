//! The law on short names. The function here does nothing: it has the law as its contract.

ghost use Rattle.name_rules.specs.Shortest.{NoChoiceIsShorter};

/// The law that no choice of names is shorter: with any other free names in place of those that a tree
/// gets, different ones for different ones, the summed length of its references isn't below what it was. It
/// speaks of references to bindings that aren't kept, and not of readable names.
pub fn no_choice_is_shorter()
    ensures { NoChoiceIsShorter }
{}
