//! Classes, their own names and static blocks.

ghost use Rattle.std.specs.Prelude.{[], ◌∷◌};
ghost use Rattle.worked_examples.specs.Asked.{defaults};
ghost use Rattle.worked_examples.specs.Classes as row;
ghost use Rattle.worked_examples.specs.Judged.{Bound, Fewest, IsAnswer, IsRefusedBy, One};

/// The own name of a class expression is seen in its heritage, in its computed keys and in its body.
/// Refused are trees in which each of these means a variable around the class.
pub fn class_sees_its_own_name()
    ensures answer { IsAnswer defaults row.own_name row.own_name_mangled }
    ensures heritage { IsRefusedBy (Bound ∷ One ∷ Fewest ∷ []) defaults row.own_name row.own_name_unseen_in_heritage }
    ensures key { IsRefusedBy (Bound ∷ One ∷ Fewest ∷ []) defaults row.own_name row.own_name_unseen_in_key }
    ensures body { IsRefusedBy (Bound ∷ One ∷ Fewest ∷ []) defaults row.own_name row.own_name_unseen_in_body }
{}

/// A class in what a class declaration extends sees the declared class, and has a scope of its own.
pub fn class_in_heritage_sees_the_declared()
    ensures answer { IsAnswer defaults row.class_in_heritage row.class_in_heritage_mangled }
    ensures captured { IsRefusedBy (Bound ∷ Fewest ∷ []) defaults row.class_in_heritage row.class_in_heritage_captured }
{}

/// A `var` in a static block is declared there, and seen nowhere else: it shares a name with a
/// variable around the class that has the same.
pub fn static_block_declares()
    ensures answer { IsAnswer defaults row.block_in_class row.block_in_class_mangled }
    ensures three_names { IsRefusedBy (Fewest ∷ []) defaults row.block_in_class row.block_in_class_by_three_names }
    ensures behind { IsRefusedBy (Bound ∷ One ∷ Fewest ∷ []) defaults row.block_in_class row.block_in_class_seen_behind }
{}
