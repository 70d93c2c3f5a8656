//! The premises of the laws on separation, on rivals and on short names: a tree that meets them, and what
//! breaks where one is dropped.

ghost use Rattle.std.specs.Prelude.{◌≡◌, IsFalse, IsTrue, codes, map};
ghost use Rattle.name_rules.specs.Mangled.{cost};
ghost use Rattle.name_rules.specs.MangledLaws.{HasNewNames};
ghost use Rattle.name_rules.specs.Shortest.{IsChoice, changed_names};
ghost use Rattle.tree_places.specs.Places.{places, sites};
ghost use Rattle.scope_rules.specs.Bindings.{same_name};
ghost use Rattle.scope_rules.specs.Faults.{has_crossing};
ghost use Rattle.scope_rules.specs.FunctionNames.{names_functions_once};
ghost use Rattle.scope_rules.specs.Separation.{function_names_apart};
ghost use Rattle.worked_examples.specs.Asked.{defaults, readably};
ghost use Rattle.worked_examples.specs.Blocks as blocks;
ghost use Rattle.worked_examples.specs.Faulty as faulty;
ghost use Rattle.worked_examples.specs.Functions as functions;
ghost use Rattle.worked_examples.specs.RivalRows.{TakesFewerByShadowing, always, has_meeting, named_twice, sibling_blocks_readably};

/// A tree without a crossing whose functions have one name each: no two of its bindings meet. One of
/// the bindings here is a function-name that is shadowed.
pub fn separate_names()
    ensures once { IsTrue (names_functions_once functions.shadowed_name) }
    ensures one_name { IsTrue (function_names_apart (sites functions.shadowed_name)) }
    ensures no_crossing { IsFalse (has_crossing same_name (places functions.shadowed_name)) }
    ensures apart { IsFalse (has_meeting functions.shadowed_name) }
{}

/// With a crossing two bindings meet, and so they do where a function has two names, as no JavaScript
/// has it.
pub fn names_that_meet()
    ensures one_name { IsTrue (function_names_apart (sites faulty.crossed)) }
    ensures crossing { IsTrue (has_crossing same_name (places faulty.crossed)) }
    ensures meet { IsTrue (has_meeting faulty.crossed) }
    ensures twice { IsFalse (names_functions_once named_twice) }
    ensures two_names { IsFalse (function_names_apart (sites named_twice)) }
    ensures no_crossing { IsFalse (has_crossing same_name (places named_twice)) }
    ensures two_meet { IsTrue (has_meeting named_twice) }
{}

/// The tree of which `rivals_keep_bindings` shows rivals has functions of one name each.
pub fn rivals_have_premises()
    ensures { IsTrue (function_names_apart (sites blocks.sibling_blocks)) }
{}

/// What newly shadows a function's own name does with fewer names than any rival.
pub fn shadowing_takes_fewer()
    ensures { TakesFewerByShadowing functions.unshadowed_name (defaults functions.unshadowed_name) functions.shadowed_name }
{}

/// A tree under its new names, and another free name for all of them: one name is what they are all called.
pub fn names_are_chosen()
    ensures new { HasNewNames (defaults blocks.sibling_blocks) blocks.sibling_blocks blocks.sibling_blocks_mangled }
    ensures choice { IsChoice (defaults blocks.sibling_blocks) blocks.sibling_blocks blocks.sibling_blocks_mangled (always (codes "t")) }
{}

/// Readable names aren't shortest: a choice of a free name for theirs is shorter.
pub fn readable_names_are_longer()
    ensures new { HasNewNames (readably blocks.sibling_blocks) blocks.sibling_blocks sibling_blocks_readably }
    ensures choice { IsChoice (readably blocks.sibling_blocks) blocks.sibling_blocks sibling_blocks_readably (always (codes "e")) }
    ensures chosen { changed_names (readably blocks.sibling_blocks) blocks.sibling_blocks blocks.sibling_blocks_mangled ≡ map (always (codes "e")) (changed_names (readably blocks.sibling_blocks) blocks.sibling_blocks sibling_blocks_readably) }
    ensures longer { cost (readably blocks.sibling_blocks) blocks.sibling_blocks sibling_blocks_readably ≡ 12 }
    ensures shorter { cost (readably blocks.sibling_blocks) blocks.sibling_blocks blocks.sibling_blocks_mangled ≡ 2 }
{}
