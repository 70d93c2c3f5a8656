//! The symbols of a tree.

ghost use Rattle.std.specs.Prelude.{◌≡◌, ◌<◌, ◌≤◌, ◌-◌, ◌^◌, ℕ, IfOk, None, get_or, length, map};
ghost use Rattle.std.specs.List.{AllByRecursion, range_with_len};
ghost use Rattle.number_tables.specs.GroupsOf.{group_at, group_count, items_of};
ghost use Rattle.number_tables.specs.PlacedNumbers.{RiseFrom, number_at};
ghost use Rattle.syntax_sem.specs.NodeId as node_id;
ghost use Rattle.syntax_sem.specs.SymbolId as symbol_id;
ghost use Rattle.tree_symbols.specs.Known as spec;
ghost use Rattle.tree_symbols.specs.Known.{AreListed, IsRowBelow, nodes_of};
ghost use Rattle.tree_symbols.specs.SymbolTables.{AreSymbols};

use crate::found::find_symbols;
use crate::ids::{node_ids, symbol_ids};
use crate::known::KnownPlace;
use crate::rows::{bound_symbols, declared_symbols, list_nodes, listing_scopes, number_symbols};
use number_tables::{Groups, place_numbers};
use std::alloc::{AllocError, Global};
use syntax_sem::node::NodeId;
use syntax_sem::symbol::SymbolId;

/// The symbols of a tree: each by its binding, with the nodes that declare it, by the scopes that list it, and
/// by node.
#[derive(Drop)]
pub struct SymbolTable<'t> {
    pub(crate) symbols: Vec<KnownPlace<'t>>,
    pub(crate) declarations: Groups<NodeId>,
    pub(crate) scope_symbols: Groups<SymbolId>,
    pub(crate) node_symbols: Vec<Option<u32>>,
}

impl<'t> SymbolTable<'t> {
    /// The symbols among the places of a tree of so many nodes and scopes. Err is want of memory.
    pub(crate) fn new(
        alloc: Global,
        nodes: usize,
        scopes: usize,
        places: &[KnownPlace<'t>],
    ) -> Result<Self, AllocError>
        requires few { nodes ≤ 2 ^ 32 - 1 }
        requires below { AllByRecursion (λ n. n < nodes) (nodes_of places.now) }
        requires rising { RiseFrom 0 (nodes_of places.now) }
        requires listed { AreListed scopes places.now }
        ensures { IfOk result (λ t. AreSymbols places.now scopes t) }
    {
        let symbols = find_symbols(alloc, places)?;
        let found = symbols.as_slice();
        let row = number_symbols(alloc, nodes, found)?;
        let numbers = row.as_slice();
        let declarations = declarations(alloc, found.len(), numbers, places)?;
        let scope_symbols = symbols_by_scope(alloc, scopes, found)?;
        let node_symbols = symbols_by_node(alloc, nodes, numbers, places)?;
        Ok(SymbolTable {
            symbols,
            declarations,
            scope_symbols,
            node_symbols,
        })
    }
}

// The nodes of the places that declare each symbol, by a row of the numbers of so many symbols.
fn declarations(
    alloc: Global,
    count: usize,
    row: &[Option<u32>],
    places: &[KnownPlace<'_>],
) -> Result<Groups<NodeId>, AllocError>
    requires nodes { AllByRecursion (λ n. n < 2 ^ 32 - 1) (nodes_of places.now) }
    requires row { IsRowBelow count row.now }
    ensures count { IfOk result (λ g. group_count g ≡ count) }
    ensures nodes { IfOk result (λ g. (k : ℕ) → map node_id.number_of (group_at g k) ≡ items_of k (map (spec.declared_by row.now) places.now) (nodes_of places.now)) }
{
    let numbers = declared_symbols(alloc, row, places)?;
    let ids = node_ids(alloc, places)?;
    let declarations = Groups::new(alloc, count, numbers.as_slice(), ids.as_slice())?;
    Ok(declarations)
}

// The symbols that each of so many scopes lists.
fn symbols_by_scope(
    alloc: Global,
    scopes: usize,
    symbols: &[KnownPlace<'_>],
) -> Result<Groups<SymbolId>, AllocError>
    requires few { length symbols.now ≤ 2 ^ 32 - 1 }
    requires listed { AreListed scopes symbols.now }
    ensures count { IfOk result (λ g. group_count g ≡ scopes) }
    ensures ids { IfOk result (λ g. (s : ℕ) → map symbol_id.number_of (group_at g s) ≡ items_of s (map spec.listing_scope symbols.now) (range_with_len 0 (length symbols.now))) }
{
    let numbers = listing_scopes(alloc, symbols)?;
    let ids = symbol_ids(alloc, symbols.len())?;
    let listed = Groups::new(alloc, scopes, numbers.as_slice(), ids.as_slice())?;
    Ok(listed)
}

// Of each node below `nodes` the symbol to which the place is bound that it is.
fn symbols_by_node(
    alloc: Global,
    nodes: usize,
    row: &[Option<u32>],
    places: &[KnownPlace<'_>],
) -> Result<Vec<Option<u32>>, AllocError>
    requires below { AllByRecursion (λ n. n < nodes) (nodes_of places.now) }
    requires rising { RiseFrom 0 (nodes_of places.now) }
    ensures { IfOk result (λ v. (n : ℕ) → get_or v.items n None ≡ number_at n (nodes_of places.now) (map (λ k. spec.entry_at row.now k.binding) places.now)) }
{
    let at = list_nodes(alloc, places)?;
    let numbers = bound_symbols(alloc, row, places)?;
    let row = place_numbers(alloc, nodes, at.as_slice(), numbers.as_slice())?;
    Ok(row)
}
