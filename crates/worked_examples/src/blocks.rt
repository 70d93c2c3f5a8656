//! Declarations in modules and blocks.

ghost use Rattle.std.specs.Prelude.{◌≡◌, [], ◌∷◌, codes};
ghost use Rattle.name_rules.specs.Mangled.{IsMangled, cost};
ghost use Rattle.worked_examples.specs.Asked.{all_short_but_dollar, defaults, readably, reserving};
ghost use Rattle.worked_examples.specs.Blocks as row;
ghost use Rattle.worked_examples.specs.Judged.{Alike, Bound, Fewest, Free, IsAnswer, IsRefusedBy, Marked, One, Plain, Stay};

/// `let x = 1; x`: x becomes `e`. Refused are a keyword and `eval` as its name, a second name for
/// one of its places, and another literal.
pub fn acorn_module()
    ensures answer { IsAnswer defaults row.acorn_module row.acorn_module_mangled }
    ensures keyword { IsRefusedBy (Free ∷ []) defaults row.acorn_module row.acorn_module_by_keyword }
    ensures eval { IsRefusedBy (Free ∷ []) defaults row.acorn_module row.acorn_module_by_eval }
    ensures two_names { IsRefusedBy (Bound ∷ One ∷ Fewest ∷ []) defaults row.acorn_module row.acorn_module_by_two_names }
    ensures other_tree { IsRefusedBy (Alike ∷ []) defaults row.acorn_module row.acorn_module_changed }
{}

/// A module without a statement is its own answer.
pub fn empty_module()
    ensures { IsAnswer defaults row.empty_module row.empty_module }
{}

/// Bindings that are never in use together share a name: unchanged names are more than are needed.
pub fn sibling_blocks_share()
    ensures answer { IsAnswer defaults row.sibling_blocks row.sibling_blocks_mangled }
    ensures unchanged { IsRefusedBy (Fewest ∷ []) defaults row.sibling_blocks row.sibling_blocks }
{}

/// A use inside a block keeps its binding's name apart from those declared there: one name for all
/// would change what the use means.
pub fn inner_use_keeps_apart()
    ensures answer { IsAnswer defaults row.inner_use row.inner_use_mangled }
    ensures one_name { IsRefusedBy (Bound ∷ Fewest ∷ []) defaults row.inner_use row.inner_use_by_one_name }
{}

/// A `var` is in use in all blocks between itself and its home.
pub fn var_in_block_keeps_apart()
    ensures answer { IsAnswer defaults row.var_in_block row.var_in_block_mangled }
    ensures one_name { IsRefusedBy (Fewest ∷ []) defaults row.var_in_block row.var_in_block_by_one_name }
{}

/// Names without a binding stay, and are never given: refused are trees in which a global is
/// captured, where it is read and where it is called, and one in which it is renamed.
pub fn unresolved_names_are_avoided()
    ensures answer { IsAnswer defaults row.unresolved row.unresolved_mangled }
    ensures captured { IsRefusedBy (Bound ∷ Free ∷ []) defaults row.unresolved row.unresolved_captured }
    ensures captured_call { IsRefusedBy (Bound ∷ Free ∷ []) defaults row.unresolved row.unresolved_captured_call }
    ensures renamed { IsRefusedBy (Stay ∷ []) defaults row.unresolved row.unresolved_renamed }
{}

/// A shorthand mark ends where the value's name changes, in objects and in patterns, and only there:
/// a mark that is left, one that ends though the names agree, and one that begins are refused, and so
/// is a key that follows its value.
pub fn shorthand_ends()
    ensures answer { IsAnswer defaults row.shorthand_use row.shorthand_use_mangled }
    ensures pattern { IsAnswer defaults row.shorthand_pattern row.shorthand_pattern_mangled }
    ensures of_global { IsAnswer defaults row.global_shorthand row.global_shorthand }
    ensures written_out { IsAnswer defaults row.written_out row.written_out_mangled }
    ensures left { IsRefusedBy (Marked ∷ []) defaults row.shorthand_use row.shorthand_use_marked }
    ensures ended { IsRefusedBy (Marked ∷ []) defaults row.global_shorthand row.global_shorthand_ended }
    ensures begun { IsRefusedBy (Marked ∷ []) defaults row.written_out row.written_out_marked }
    ensures key { IsRefusedBy (Plain ∷ []) defaults row.shorthand_use row.shorthand_use_by_key }
{}

/// The binding with more references gets the shorter name, here with all names of one character but
/// `$` reserved. The names the other way round make a mangled tree too, of a higher cost. A reserved
/// name is refused. Of two bindings with as many references the earlier one comes first.
pub fn references_rank()
    ensures answer { IsAnswer (reserving all_short_but_dollar) row.ranked row.ranked_mangled }
    ensures cheapest { cost (reserving all_short_but_dollar row.ranked) row.ranked row.ranked_mangled ≡ 4 }
    ensures otherwise { IsMangled row.ranked (reserving all_short_but_dollar row.ranked) row.ranked_otherwise }
    ensures dearer { cost (reserving all_short_but_dollar row.ranked) row.ranked row.ranked_otherwise ≡ 5 }
    ensures reserved { IsRefusedBy (Free ∷ []) (reserving all_short_but_dollar) row.ranked row.ranked_by_reserved }
    ensures readable { IsAnswer readably row.ranked row.ranked_readably }
    ensures tied { IsAnswer (reserving all_short_but_dollar) row.tied row.tied_mangled }
{}

/// A binding with a reserved name keeps it, and no other binding gets it.
pub fn reserved_names_stay()
    ensures answer { IsAnswer (reserving (codes "e" ∷ [])) row.reserved_declared row.reserved_declared_mangled }
    ensures renamed { IsRefusedBy (Stay ∷ []) (reserving (codes "e" ∷ [])) row.reserved_declared row.reserved_declared_renamed }
{}

/// A label is no variable: it stays, whatever its name.
pub fn labels_stay()
    ensures answer { IsAnswer defaults row.labels row.labels_mangled }
    ensures renamed { IsRefusedBy (Plain ∷ []) defaults row.labels row.labels_renamed }
{}

/// The value that a `switch` asks for lies outside its scope, a function in it too: the parameter and
/// what a case declares share a name.
pub fn discriminant_lies_outside()
    ensures answer { IsAnswer defaults row.discriminant row.discriminant_mangled }
    ensures two_names { IsRefusedBy (Fewest ∷ []) defaults row.discriminant row.discriminant_by_two_names }
{}

/// A function that a case of a module's `switch` declares isn't seen behind the `switch`.
pub fn function_in_case_declares()
    ensures answer { IsAnswer defaults row.function_in_case row.function_in_case_mangled }
    ensures behind { IsRefusedBy (Stay ∷ []) defaults row.function_in_case row.function_in_case_seen_behind }
{}

/// A catch parameter and the declarations of its block are in one scope.
pub fn catch_parameter_declares()
    ensures { IsAnswer defaults row.catch_parameter row.catch_parameter_mangled }
{}

/// A `catch` may have no parameter: what its block declares is seen there alone, and a global that is
/// used before it keeps its name to itself.
pub fn catch_needs_no_parameter()
    ensures answer { IsAnswer defaults row.catch_without_parameter row.catch_without_parameter_mangled }
    ensures by_global { IsRefusedBy (Free ∷ []) defaults row.catch_without_parameter row.catch_without_parameter_by_global }
{}

/// What the head of a `for` declares by `let` is seen in the head and in the body, not behind the
/// loop: there the name is a global.
pub fn for_head_declares()
    ensures answer { IsAnswer defaults row.for_head row.for_head_mangled }
    ensures one_name { IsRefusedBy (Bound ∷ Fewest ∷ []) defaults row.for_head row.for_head_by_one_name }
    ensures behind { IsRefusedBy (Stay ∷ []) defaults row.for_head row.for_head_seen_behind }
{}

/// The same of `for`-`in` and `for`-`of`. The value that is gone through lies in the loop's scope: a
/// `let` of its head is seen there, though it has no value yet.
pub fn for_in_head_declares()
    ensures answer { IsAnswer defaults row.for_in_head row.for_in_head_mangled }
    ensures unseen { IsRefusedBy (Bound ∷ One ∷ Free ∷ Fewest ∷ []) defaults row.for_in_head row.for_in_head_unseen }
    ensures of_answer { IsAnswer defaults row.for_of_head row.for_of_head_mangled }
    ensures of_unseen { IsRefusedBy (Bound ∷ One ∷ Fewest ∷ []) defaults row.for_of_head row.for_of_head_unseen }
{}

/// `using` and `await using` declare as `const` does.
pub fn using_declares()
    ensures { IsAnswer defaults row.using_declared row.using_declared_mangled }
{}
