//! The laws on names: of groups and slots, short names, given names, private names and mangled trees. The
//! functions here do nothing: each has a law as its contract.

ghost use Rattle.name_rules.specs.MangledLaws.{NewNamesAreSound, NewNamesMangle};
ghost use Rattle.name_rules.specs.NameCharacters.{ShortNamesAreIdentifiers};
ghost use Rattle.name_rules.specs.NameOrder.{
  LengthsNeverFall,
  ShorterNamesComeFirst,
  ShortIsItsNumber,
  ShortIsOneToOne,
  ShortIsOnto,
};
ghost use Rattle.name_rules.specs.PrivateLaws.{PrivateNamesKeepBindings, PrivateNumbersDiffer};
ghost use Rattle.name_rules.specs.SlotNames.{
  GivenNamesFit,
  GivenNamesKeepBindings,
  SlotNamesKeepApart,
  SlotNamesKeepBindings,
};
ghost use Rattle.name_rules.specs.Laws.{
  LiveTogether,
  LiveUpToHome,
  SlotsAreFewest,
  SlotsNeverClash,
  WidthIsReached,
};

/// The law that a group which is live in a scope is live in each scope further out, up to its home.
pub fn live_up_to_home()
    ensures { LiveUpToHome }
{}

/// The law that of two groups which are live in one scope one is live in the other's home.
pub fn live_together()
    ensures { LiveTogether }
{}

/// The law that two groups with one slot are never live in one scope.
pub fn slots_never_clash()
    ensures { SlotsNeverClash }
{}

/// The law that a tree has as many slots as groups are live in its busiest scope, and that the home of
/// a group with the last slot is such a scope.
pub fn slots_are_fewest()
    ensures fewest { SlotsAreFewest }
    ensures reached { WidthIsReached }
{}

/// The law that no two numbers have one short name.
pub fn short_is_one_to_one()
    ensures { ShortIsOneToOne }
{}

/// The law that lengths of short names never fall as the number grows, so that a shorter name comes first.
pub fn lengths_never_fall()
    ensures never { LengthsNeverFall }
    ensures first { ShorterNamesComeFirst }
{}

/// The law that short names are the numbers of their digits: the n-th is spelled by the characters of names
/// and is the number n, and each name that they spell is the short name of the number that it is.
pub fn short_names_are_numbers()
    ensures number { ShortIsItsNumber }
    ensures onto { ShortIsOnto }
{}

/// The law that every short name is an identifier name.
pub fn short_names_are_identifiers()
    ensures { ShortNamesAreIdentifiers }
{}

/// The law on names that are given by slot: where a tree's slots have different names, none of them
/// taken, these keep apart what the old names did, and every place has the binding that it had.
pub fn slot_names_keep_bindings()
    ensures apart { SlotNamesKeepApart }
    ensures bindings { SlotNamesKeepBindings }
{}

/// The law that along the class bodies around a place the numbers of private names are all different,
/// those of open classes aside, which have none.
pub fn private_numbers_differ()
    ensures { PrivateNumbersDiffer }
{}

/// The law that under the new private names every private place keeps its binding, and so its class.
pub fn private_names_keep_bindings()
    ensures { PrivateNamesKeepBindings }
{}

/// The law that the given names of a tree's slots are different and not taken, and that every place has
/// the binding under the given names that it had.
pub fn given_names_keep_bindings()
    ensures fit { GivenNamesFit }
    ensures bindings { GivenNamesKeepBindings }
{}

/// The law on new names: a tree that is renamed by them is mangled, if each private name had a binding,
/// and has no fault where there was none.
pub fn new_names_mangle()
    ensures mangled { NewNamesMangle }
    ensures sound { NewNamesAreSound }
{}
