//! The laws on how far the candidates are asked. The function here does nothing: it has the laws as its
//! contract.

ghost use Rattle.name_rules.specs.Bounds.{BoundIsSmall, ChangedNamesAreBounded, NamesAreBounded};

/// The law that each name which is given is a candidate whose number is below the number of slots and
/// that of the different names which must not be given, together; that so is each name that bindings which
/// aren't kept have in a tree under its new names; and that the two are below 2 ^ 31 where the
/// tree's nodes and the reserved names are fewer than 2 ^ 30.
pub fn names_are_bounded()
    ensures bounded { NamesAreBounded }
    ensures changed { ChangedNamesAreBounded }
    ensures small { BoundIsSmall }
{}
