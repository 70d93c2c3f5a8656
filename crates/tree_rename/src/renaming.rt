//! A tree, and a program, under new names.

ghost use Rattle.std.specs.List.{AllByRecursion};
ghost use Rattle.std.specs.Prelude.{◌≡◌, ◌<◌, ◌^◌, IfOk, IsTrue, length, map, string_bytes};
ghost use Rattle.syntax_lex.specs.Identifier.{is_identifier_name};
ghost use Rattle.tree_core.specs.Program.{IsProgram};
ghost use Rattle.tree_nodes.specs.Tree.{alone};
ghost use Rattle.tree_places.specs.Places.{names as names_of, sites};
ghost use Rattle.tree_places.specs.Renaming.{IsRenamed};
ghost use Rattle.tree_places.specs.Chosen.{chosen, spare_plain};
ghost use Rattle.tree_rename.specs.Formed.{AreFormed};

use crate::walk::rename_node;
use std::alloc::{AllocError, Global};
use tree_core::Program;
use tree_nodes::Node;

/// The program under new names, in place. The n-th place in printing order, an Identifier or a
/// PrivateIdentifier, gets `names[i]` where `choices[n]` is `Some(i)`, and keeps its name where there
/// is no such choice or no such name. A shorthand mark ends where the names of key and value no
/// longer agree. The names are identifier names of at most 4,294,967,295 bytes, as in each program.
/// The error is want of memory for a name.
pub fn rename(
    alloc: Global,
    program: Program,
    choices: &[Option<u32>],
    names: &[String],
) -> Result<Program, AllocError>
    requires spare { IsTrue (spare_plain (sites (alone program)) choices.now) }
    requires identifiers { AllByRecursion (λ s. IsTrue (is_identifier_name (string_bytes s))) names.now }
    requires short { AllByRecursion (λ s. length (string_bytes s) < 2 ^ 32) names.now }
    ensures renamed { IfOk result (λ p. IsRenamed (alone program) (alone p)) }
    ensures names { IfOk result (λ p. names_of (alone p)
        ≡ chosen (map string_bytes names.now) choices.now (names_of (alone program))) }
    ensures program { IfOk result (λ p. IsProgram p) }
{
    let mut root = program.into_root();
    rename_node(alloc, &mut root, names, choices)?;
    Ok(Program::from_root(root))
}

/// The same for a tree, which need be no program. Where its places have names, and its Properties
/// keys and values, the new names stand there; where besides no plain name is to change, the tree is
/// renamed.
pub fn rename_tree(
    alloc: Global,
    root: Node,
    choices: &[Option<u32>],
    names: &[String],
) -> Result<Node, AllocError>
    ensures renamed { IfOk result (λ n. AreFormed (alone root)
        → IsTrue (spare_plain (sites (alone root)) choices.now) → IsRenamed (alone root) (alone n)) }
    ensures names { IfOk result (λ n. AreFormed (alone root) → names_of (alone n)
        ≡ chosen (map string_bytes names.now) choices.now (names_of (alone root))) }
{
    let mut tree = root;
    rename_node(alloc, &mut tree, names, choices)?;
    Ok(tree)
}
