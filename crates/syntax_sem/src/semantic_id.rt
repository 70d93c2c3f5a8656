//! What becomes of ids where what they belong to is copied.

ghost use Rattle.std.specs.Prelude.{◌≡◌, Option};
ghost use Rattle.oxc_str.specs.Equality.{DecidesEquality};
ghost use Rattle.syntax_sem.specs.SemanticId.{cloned_id, cloned_option};

/// Whether a copy of a tree keeps the ids that semantic analysis gave it.
#[derive(Clone, Copy, Debug, PartialEq, Eq)]
pub enum CloneInSemanticIds {
    /// It keeps them.
    With,
    /// It has none.
    Without,
}

/// An id that semantic analysis gives.
pub trait SemanticId: Sized + Copy {
    ghost zero: { Self };

    /// The id in a copy: itself with the ids, and the id 0 without.
    fn clone_id(&self, with: CloneInSemanticIds) -> Self
        ensures { result ≡ cloned_id zero self.now with };

    /// The id in a copy, of what has one only after analysis: itself with the ids, and none without.
    fn clone_cell_option_id(id: Option<Self>, with: CloneInSemanticIds) -> Option<Self>
        ensures { result ≡ cloned_option id with };
}

/// The law that `==` holds exactly between answers that are the same.
pub fn answers_on_ids_are_equal_exactly()
    ensures { DecidesEquality ⟦<CloneInSemanticIds as PartialEq>⟧.eq }
{}
