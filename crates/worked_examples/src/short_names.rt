//! The order in which names are taken.

ghost use Rattle.std.specs.Prelude.{◌≡◌, [], ◌∷◌, codes, map};
ghost use Rattle.name_rules.specs.ShortNames.{readable_name, short};

/// The first and the last of the names of one character, the first of two, those that are keywords and
/// `eval`, and the last number of 32 bits.
pub fn base54_vectors()
    ensures one { map short (0 ∷ 52 ∷ 53 ∷ []) ≡ codes "e" ∷ codes "Q" ∷ codes "$" ∷ [] }
    ensures two { map short (54 ∷ 55 ∷ 166 ∷ 389 ∷ 706 ∷ []) ≡ codes "ee" ∷ codes "te" ∷ codes "in" ∷ codes "do" ∷ codes "if" ∷ [] }
    ensures after_keyword { short 167 ≡ codes "an" }
    ensures eval { short 2233602 ≡ codes "eval" }
    ensures after_eval { short 2233603 ≡ codes "tval" }
    ensures last { short 4294967295 ≡ codes "xKrTKr" }
    ensures readable { map readable_name (0 ∷ 1 ∷ 10 ∷ []) ≡ codes "slot_0" ∷ codes "slot_1" ∷ codes "slot_10" ∷ [] }
{}
