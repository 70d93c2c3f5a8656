//! From a program to its analysis.

ghost use Rattle.std.specs.Prelude.{◌≡◌, ℕ, IfErr, IfOk, IfSome, IsTrue, None, false, is_some};
ghost use Rattle.scope_rules.specs.Bindings.{same_name};
ghost use Rattle.scope_rules.specs.Faults.{has_fault};
ghost use Rattle.tree_core.specs.Program.{IsProgram};
ghost use Rattle.tree_nodes.specs.Tree.{alone};
ghost use Rattle.tree_places.specs.Places.{places};
ghost use Rattle.tree_semantic.specs.Semantics.{IsSemantic, IsSemanticOf, scoping_of};
ghost use Rattle.tree_semantic.specs.declared.builder.SemanticError.TheVariants.{BadScope};
ghost use Rattle.tree_symbols.specs.Scopings.{name_set};

use crate::classes::Classes;
use crate::nodes::AstNodes;
use crate::semantic::{Semantic, Stats};
use place_list::list_places_and_nodes;
use scope_tables::ScopeTables;
use std::alloc::{AllocError, Global};
use thiserror::Error;
use tree_core::Program;
use tree_nodes::Node;
use tree_symbols::Scoping;

/// Why a program was not analysed.
#[derive(Debug, Drop, Error)]
pub enum SemanticError {
    /// Its scopes have a fault.
    #[error("bad scope")]
    BadScope,
    #[error("out of memory")]
    Memory,
}

impl From<AllocError> for SemanticError {
    ghost use Rattle.std.specs.Prelude.{◌≡◌};
    ghost use Rattle.tree_semantic.specs.declared.builder.SemanticError.TheVariants.{Memory};

    ghost from_gives = { λ _ e. e ≡ Memory };

    fn from(_error: AllocError) -> SemanticError {
        SemanticError::Memory
    }
}

/// Builds the analysis of a program.
#[derive(Drop)]
pub struct SemanticBuilder;

impl SemanticBuilder {
    /// A builder.
    pub fn new() -> Self {
        SemanticBuilder
    }

    /// One that is told how many nodes, scopes, symbols and references there may be. The answer is the same, and
    /// so is the room: it is made for what is found.
    pub fn with_stats(self, _stats: Stats) -> Self {
        self
    }

    /// The analysis of a program, in which every symbol has its name in the tree. BadScope comes exactly where the
    /// program's scopes have a fault, as the analysis is of a program without faults; Memory is want of memory.
    pub fn build<'t>(
        self,
        alloc: Global,
        program: &'t Program,
    ) -> Result<Semantic<'t>, SemanticError>
        ensures semantic { IfOk result (λ s. IsSemantic s) }
        ensures of_program { IfOk result (λ s. IsSemanticOf (alone program.now) s) }
        ensures names { IfOk result (λ s. (k : ℕ) → name_set (scoping_of s) k ≡ None) }
        ensures bad_scope { IfErr result (λ e. e ≡ BadScope → IsTrue (has_fault same_name (places (alone program.now)))) }
    {
        match analyse(alloc, program.root())? {
            Some(semantic) => Ok(semantic),
            None => Err(SemanticError::BadScope),
        }
    }
}

// The analysis of a tree, if its scopes have no fault. Err is want of memory, or of numbers.
fn analyse<'t>(alloc: Global, root: &'t Node) -> Result<Option<Semantic<'t>>, AllocError>
    requires { IsProgram root.now }
    ensures semantic { IfOk result (λ found. IfSome found (λ s. IsSemanticOf (alone root.now) s)) }
    ensures names { IfOk result (λ found. IfSome found (λ s. (k : ℕ) → name_set (scoping_of s) k ≡ None)) }
    ensures faulty { IfOk result (λ found. is_some found ≡ false → IsTrue (has_fault same_name (places (alone root.now)))) }
{
    let mut list = list_places_and_nodes(alloc, root)?;
    let nodes = AstNodes::build(alloc, &list)?;
    // The nodes are kept once.
    list.node_entries = Vec::new(alloc);
    let tables = ScopeTables::from_list(alloc, list)?;
    if tables.has_fault() {
        return Ok(None);
    }
    let classes = Classes::build(alloc, &tables.list, &nodes)?;
    let scoping = Scoping::build(alloc, tables)?;
    Ok(Some(Semantic {
        scoping,
        nodes,
        classes,
    }))
}
