//! The analysis of a program.

ghost use Rattle.std.specs.Prelude.{◌≡◌, ◌<◌, ℕ, None, Some, length, map, if◌then◌else◌};
ghost use Rattle.std.specs.List.{AllByRecursion};
ghost use Rattle.place_list.specs.Nodes.{nested_nodes};
ghost use Rattle.scope_rules.specs.Bindings.{same_name};
ghost use Rattle.scope_rules.specs.Evals.{contains};
ghost use Rattle.scope_rules.specs.References.{references};
ghost use Rattle.scope_rules.specs.Symbols.{symbols};
ghost use Rattle.syntax_sem.specs.SymbolId.{number_of};
ghost use Rattle.tree_nodes.specs.Tree.{Parts};
ghost use Rattle.tree_places.specs.Places.{places, scopes};
ghost use Rattle.tree_semantic.specs.Semantics.{IsSemantic, IsSemanticOf, classes_of, nodes_of, scoping_of};
ghost use Rattle.tree_symbols.specs.Scopings.{IsScoping, name_set, places_of};

use crate::classes::Classes;
use crate::nodes::AstNodes;
use oxc_data_structures::inline_string::InlineString;
use syntax_sem::symbol::SymbolId;
use tree_symbols::Scoping;

/// How many nodes, scopes, symbols and references there are.
#[derive(Clone, Copy, Debug, PartialEq, Eq)]
pub struct Stats {
    pub nodes: u32,
    pub scopes: u32,
    pub symbols: u32,
    pub references: u32,
}

/// The analysis of a program without faults.
#[derive(Drop)]
pub struct Semantic<'t> {
    pub(crate) scoping: Scoping<'t>,
    pub(crate) nodes: AstNodes<'t>,
    pub(crate) classes: Classes<'t>,
}

impl<'t> Semantic<'t> {
    /// Its symbols, references and scopes.
    pub fn scoping(&self) -> &Scoping<'t>
        requires { IsSemantic self.now }
        ensures own { result.now ≡ scoping_of self.now }
        ensures sound { IsScoping result.now }
    {
        &self.scoping
    }

    /// Its nodes.
    pub fn nodes(&self) -> &AstNodes<'t>
        ensures { result.now ≡ nodes_of self.now }
    {
        &self.nodes
    }

    /// Its classes.
    pub fn classes(&self) -> &Classes<'t>
        ensures { result.now ≡ classes_of self.now }
    {
        &self.classes
    }

    /// How many there are of each.
    pub fn stats(&self) -> Stats
        requires { IsSemantic self.now }
        ensures nodes { (t : Parts) → IsSemanticOf t self.now → result.nodes ≡ length (nested_nodes t) }
        ensures scopes { (t : Parts) → IsSemanticOf t self.now → result.scopes ≡ length (scopes t) }
        ensures symbols { (t : Parts) → IsSemanticOf t self.now → result.symbols ≡ length (symbols same_name (places t)) }
        ensures references { (t : Parts) → IsSemanticOf t self.now → result.references ≡ length (references (places t)) }
    {
        Stats {
            nodes: self.nodes.len() as u32,
            scopes: self.scoping.scopes_len() as u32,
            symbols: self.scoping.symbols_len() as u32,
            references: self.scoping.references_len() as u32,
        }
    }

    /// The symbols, references and scopes alone.
    pub fn into_scoping(self) -> Scoping<'t>
        requires { IsSemantic self }
        ensures own { result ≡ scoping_of self.entry }
        ensures sound { IsScoping result }
    {
        self.scoping
    }

    /// Gives some symbols this name. It takes no memory.
    pub fn set_symbol_names(&mut self, ids: &[SymbolId], name: InlineString<15, u8>)
        requires semantic { IsSemantic self.old }
        requires ids { AllByRecursion (λ k. k < length (symbols same_name (places_of (scoping_of self.old)))) (map number_of ids.now) }
        ensures semantic { IsSemantic self.new }
        ensures same { (t : Parts) → IsSemanticOf t self.old → IsSemanticOf t self.new }
        ensures names { (k : ℕ) → name_set (scoping_of self.new) k ≡ (if contains (map number_of ids.now) k then Some name else name_set (scoping_of self.old) k) }
    {
        self.scoping.set_symbol_names(ids, &name);
    }

    /// Gives every symbol its name in the tree again. It takes no memory.
    pub fn reset_symbol_names(&mut self)
        requires { IsSemantic self.old }
        ensures semantic { IsSemantic self.new }
        ensures same { (t : Parts) → IsSemanticOf t self.old → IsSemanticOf t self.new }
        ensures names { (k : ℕ) → name_set (scoping_of self.new) k ≡ None }
    {
        self.scoping.reset_symbol_names();
    }
}
