//! Rivals: other renamings that keep what each name means.

ghost use Rattle.name_rules.specs.Mangled.{IsRival};
ghost use Rattle.worked_examples.specs.Asked.{defaults};
ghost use Rattle.worked_examples.specs.Blocks as blocks;
ghost use Rattle.worked_examples.specs.Functions as functions;

/// A tree is its own rival, and its answer is one; so is a tree whose names may not be given.
pub fn rivals_keep_bindings()
    ensures unchanged { IsRival blocks.sibling_blocks (defaults blocks.sibling_blocks) blocks.sibling_blocks }
    ensures answer { IsRival blocks.sibling_blocks (defaults blocks.sibling_blocks) blocks.sibling_blocks_mangled }
    ensures keywords { IsRival blocks.sibling_blocks (defaults blocks.sibling_blocks) blocks.sibling_blocks_by_keywords }
{}

/// What keeps no binding is no rival, nor what has a fault, nor what shadows a function's own name
/// that wasn't.
pub fn no_rivals()
    ensures captured { ¬ IsRival blocks.inner_use (defaults blocks.inner_use) blocks.inner_use_by_one_name }
    ensures faulty { ¬ IsRival blocks.var_in_block (defaults blocks.var_in_block) blocks.var_in_block_by_one_name }
    ensures shadowing { ¬ IsRival functions.unshadowed_name (defaults functions.unshadowed_name) functions.shadowed_name }
{}
