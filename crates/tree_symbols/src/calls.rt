//! What is asked of the symbols of a tree.

ghost use Rattle.std.specs.Prelude.{◌≡◌, ◌<◌, ◌≤◌, ◌-◌, ◌^◌, ℕ, List, IfOk, IfSome, None, Some, drop, get_or, length, map, slice_get};
ghost use Rattle.std.specs.List.{AllByRecursion};
ghost use Rattle.number_tables.specs.GroupsOf.{group_count};
ghost use Rattle.scope_rules.specs.Bindings.{node, same_name};
ghost use Rattle.scope_rules.specs.Homes.{home};
ghost use Rattle.scope_rules.specs.Symbols.{node_symbol, own_number, redeclarations, scope_symbols, symbols};
ghost use Rattle.syntax_sem.specs.NodeId as node_id;
ghost use Rattle.syntax_sem.specs.SymbolId as symbol_id;
ghost use Rattle.tree_places.specs.Places.{Place};
ghost use Rattle.number_tables.specs.PlacedNumbers.{RiseFrom};
ghost use Rattle.tree_symbols.specs.Known.{home_number, nodes_of};
ghost use Rattle.tree_symbols.specs.SymbolTables.{AreSymbolsOf, IsRowOf};

use crate::known::{home, number_or_none};
use crate::rows::number_symbols;
use crate::symbol_table::SymbolTable;
use std::alloc::{AllocError, Global};
use syntax_sem::node::NodeId;
use syntax_sem::symbol::SymbolId;

impl<'t> SymbolTable<'t> {
    /// How many symbols there are.
    pub fn len(&self) -> usize
        ensures { (ps : List Place) (scopes : ℕ) → AreSymbolsOf ps scopes self.now → result ≡ length (symbols same_name ps) }
    {
        self.symbols.len()
    }

    /// The name of a symbol in the tree.
    pub fn name(&self, k: usize) -> &'t str
        requires { k < length self.now.symbols.items }
        ensures { (ps : List Place) (scopes : ℕ) → AreSymbolsOf ps scopes self.now → IfSome (slice_get (symbols same_name ps) k) (λ b. result.now ≡ b.name) }
    {
        self.symbols[k].place.name
    }

    /// The node of its first declaring place.
    pub fn declaration(&self, k: usize) -> u32
        requires { k < length self.now.symbols.items }
        ensures node { (ps : List Place) (scopes : ℕ) → AreSymbolsOf ps scopes self.now → IfSome (slice_get (symbols same_name ps) k) (λ b. result ≡ node b) }
        ensures stored { slice_get (nodes_of self.now.symbols.items) k ≡ Some result }
    {
        self.symbols[k].place.node
    }

    /// The number of the scope in which it is declared.
    pub fn home(&self, k: usize) -> Option<u32>
        requires { k < length self.now.symbols.items }
        ensures home { (ps : List Place) (scopes : ℕ) → AreSymbolsOf ps scopes self.now → IfSome (slice_get (symbols same_name ps) k) (λ b. result ≡ own_number (home b.site)) }
        ensures stored { slice_get (map home_number self.now.symbols.items) k ≡ Some result }
    {
        home(&self.symbols[k])
    }

    /// The symbol of the place that is this node, if one is and has one.
    pub fn node_symbol(&self, node: usize) -> Option<u32>
        ensures symbol { (ps : List Place) (scopes : ℕ) → AreSymbolsOf ps scopes self.now → result ≡ node_symbol same_name ps node }
        ensures stored { result ≡ get_or self.now.node_symbols.items node None }
    {
        number_or_none(self.node_symbols.as_slice(), node)
    }

    /// The nodes of its further declaring places, rising.
    pub fn redeclarations(&self, k: usize) -> &[NodeId]
        requires { k < group_count self.now.declarations }
        ensures { (ps : List Place) (scopes : ℕ) → AreSymbolsOf ps scopes self.now → map node_id.number_of result.now ≡ redeclarations same_name ps k }
    {
        after_first(self.declarations.get(k))
    }

    // Of each node below `nodes` which symbol it is, if it is one. Err is want of memory.
    pub(crate) fn row(&self, alloc: Global, nodes: usize) -> Result<Vec<Option<u32>>, AllocError>
        requires few { length self.now.symbols.items ≤ 2 ^ 32 - 1 }
        requires below { AllByRecursion (λ n. n < nodes) (nodes_of self.now.symbols.items) }
        requires rising { RiseFrom 0 (nodes_of self.now.symbols.items) }
        ensures { IfOk result (λ v. IsRowOf self.now.symbols.items v.items) }
    {
        number_symbols(alloc, nodes, self.symbols.as_slice())
    }

    /// The symbols that a scope lists, rising: those that it declares, but for a shadowed function-name.
    pub fn scope_symbols(&self, s: usize) -> &[SymbolId]
        requires { s < group_count self.now.scope_symbols }
        ensures { (ps : List Place) (scopes : ℕ) → AreSymbolsOf ps scopes self.now → map symbol_id.number_of result.now ≡ scope_symbols same_name ps s }
    {
        self.scope_symbols.get(s)
    }
}

// All but the first.
fn after_first<T: Copy>(items: &[T]) -> &[T]
    ensures { result.now ≡ drop 1 items.now }
{
    if items.is_empty() { items } else { &items[1..] }
}
