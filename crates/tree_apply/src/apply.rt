//! A copy of a program under the names that an analysis of it has.

ghost use Rattle.std.specs.Prelude.{◌≡◌, ℕ, IfOk, IsTrue, Some, map};
ghost use Rattle.name_rules.specs.Mangled.{IsMangled};
ghost use Rattle.name_rules.specs.Options.{Options};
ghost use Rattle.oxc_mangler.specs.ClassNames.{AreClassNames};
ghost use Rattle.symbol_names.specs.Named.{AreNamed};
ghost use Rattle.syntax_lex.specs.Identifier.{is_identifier_name};
ghost use Rattle.tree_apply.specs.Applied.{applied};
ghost use Rattle.tree_core.specs.Program.{IsProgram};
ghost use Rattle.tree_nodes.specs.Tree.{Text, alone};
ghost use Rattle.tree_places.specs.Places.{names, places, seen};
ghost use Rattle.tree_places.specs.Renaming.{IsRenamed};
ghost use Rattle.tree_semantic.specs.Renamed.{new_name};
ghost use Rattle.tree_semantic.specs.Semantics.{IsSemanticOf, scoping_of};
ghost use Rattle.tree_symbols.specs.Scopings.{name_set};

use crate::given::find_given;
use place_list::list_places;
use std::alloc::{AllocError, Global};
use tree_core::Program;
use tree_rename::rename;
use tree_semantic::{PrivateNames, Semantic};

/// A copy of the program under the names that its analysis has: each place of a symbol has the symbol's name now,
/// each private name that its class has a new name for has that, and all other names are as they were. A shorthand
/// mark ends where the names of key and value no longer agree. The names are identifier names. Err is want of memory.
///
/// After `build_with_semantic`, with what that answers, the copy is mangled.
pub fn apply_names(
    alloc: Global,
    program: &Program,
    semantic: &Semantic<'_>,
    mappings: &PrivateNames<'_>,
) -> Result<Program, AllocError>
    requires analysis { IsSemanticOf (alone program.now) semantic.now }
    requires names { (k : ℕ) (x : Text) → name_set (scoping_of semantic.now) k ≡ Some x → IsTrue (is_identifier_name x) }
    requires private { (c : ℕ) (old x : Text) → new_name mappings.now c old ≡ Some x → IsTrue (is_identifier_name x) }
    ensures renamed { IfOk result (λ u. IsRenamed (alone program.now) (alone u)) }
    ensures names { IfOk result (λ u. names (alone u) ≡ map (applied (places (alone program.now)) (name_set (scoping_of semantic.now)) (new_name mappings.now)) (places (alone program.now))) }
    ensures program { IfOk result (λ u. IsProgram u) }
    ensures mangled { IfOk result (λ u. (o : Options) → AreNamed o (alone program.now) (name_set (scoping_of semantic.now)) → AreClassNames (places (alone program.now)) (seen (alone program.now)).classes mappings.now → IsMangled (alone program.now) o (alone u)) }
{
    let root = program.root();
    let list = list_places(alloc, root)?;
    let given = find_given(alloc, &list, semantic, mappings)?;
    let copy = Program::from_root(root.try_clone(alloc)?);
    let renamed = rename(
        alloc,
        copy,
        given.choices.as_slice(),
        given.names.as_slice(),
    )?;
    Ok(renamed)
}
