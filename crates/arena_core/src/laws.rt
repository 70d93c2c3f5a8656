//! Laws of the definitions that the contracts cite, each the contract of a function that does nothing.

ghost use Rattle.arena_core.specs.BitSet.{MembersAreTruths, MembersRise};

/// The members of a set, as [`crate::BitSet::ones`] lists them, rise, so that each is listed once.
pub fn members_rise()
    ensures { MembersRise }
{}

/// The members that are listed are exactly the numbers in the set.
pub fn members_are_truths()
    ensures { MembersAreTruths }
{}
