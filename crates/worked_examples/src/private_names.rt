//! Private members of classes.

ghost use Rattle.std.specs.Prelude.{[], ◌∷◌};
ghost use Rattle.worked_examples.specs.Asked.{defaults};
ghost use Rattle.worked_examples.specs.Judged.{IsAnswer, IsRefusedBy, Private, Stay};
ghost use Rattle.worked_examples.specs.PrivateNames as row;

/// Private names are counted on from those of the classes around, a getter and a setter as one.
/// Refused are trees in which a class takes the name of an outer class's member, and in which a use
/// goes past the class that it meant.
pub fn private_names()
    ensures answer { IsAnswer defaults row.private_members row.private_members_mangled }
    ensures captured { IsRefusedBy (Private ∷ []) defaults row.private_members row.private_members_captured }
    ensures chain { IsAnswer defaults row.private_chain row.private_chain_mangled }
    ensures other_class { IsRefusedBy (Private ∷ []) defaults row.private_chain row.private_chain_past_its_class }
{}

/// What a class extends lies outside its body: a private name there is an outer class's.
pub fn heritage_lies_outside()
    ensures { IsAnswer defaults row.heritage row.heritage_mangled }
{}

/// A computed key declares no private name, and may use those of the classes around: refused are trees
/// in which the class takes that name for a member of its own, and in which the key uses one.
pub fn computed_keys_use_private_names()
    ensures answer { IsAnswer defaults row.computed_key row.computed_key_mangled }
    ensures captured { IsRefusedBy (Private ∷ []) defaults row.computed_key row.computed_key_captured }
    ensures own_class { IsRefusedBy (Private ∷ []) defaults row.computed_key row.computed_key_of_its_class }
{}

/// The private names of a class whose body holds a direct eval stay, and classes inside it don't get
/// them.
pub fn open_classes_keep_private_names()
    ensures answer { IsAnswer defaults row.open_class row.open_class }
    ensures renamed { IsRefusedBy (Stay ∷ []) defaults row.open_class row.open_class_renamed }
    ensures around { IsAnswer defaults row.open_class_around row.open_class_around_mangled }
{}
