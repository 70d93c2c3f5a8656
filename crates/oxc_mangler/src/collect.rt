//! The symbols that keep their names as functions or classes.

ghost use Rattle.std.specs.Prelude.{◌≡◌, IfOk};
ghost use Rattle.kept_names.specs.Keeping.{keeping};
ghost use Rattle.kept_names.specs.NamesKept.{symbols_kept};
ghost use Rattle.tree_nodes.specs.Tree.{Parts};
ghost use Rattle.tree_places.specs.Places.{places};
ghost use Rattle.tree_semantic.specs.Semantics.{IsSemantic, IsSemanticOf};

use arena_core::BitSet;
use mangle_options::MangleOptionsKeepNames;
use std::alloc::{AllocError, Allocator};
use tree_semantic::Semantic;

/// The symbols of a program that keep their names as functions or classes, as a set of their numbers below that of
/// all symbols. Err is want of memory.
pub fn collect_name_symbols<A: Allocator>(
    alloc: A,
    options: MangleOptionsKeepNames,
    semantic: &Semantic<'_>,
) -> Result<BitSet<A>, AllocError>
    requires { IsSemantic semantic.now }
    ensures { IfOk result (λ bits. (t : Parts) → IsSemanticOf t semantic.now → bits ≡ symbols_kept (keeping options) (places t)) }
{
    let kept = kept_names::collect_name_symbols(alloc, options, semantic.scoping().tables())?;
    Ok(kept)
}
