//! Rows of ids.

ghost use Rattle.std.specs.Prelude.{◌≡◌, ◌<◌, ◌≤◌, ◌-◌, ◌^◌, IfOk, IfSome, map, option_map};
ghost use Rattle.std.specs.List.{AllByRecursion, range_with_len};
ghost use Rattle.syntax_sem.specs.NodeId as node_id;
ghost use Rattle.syntax_sem.specs.ReferenceId as reference_id;
ghost use Rattle.syntax_sem.specs.ScopeId as scope_id;
ghost use Rattle.syntax_sem.specs.SymbolId as symbol_id;
ghost use Rattle.tree_symbols.specs.Known.{nodes_of};
ghost use Rattle.tree_symbols.specs.ReferenceTables.{or_root};
ghost use Rattle.tree_symbols.specs.SymbolTables.{first_numbers};

use crate::known::KnownPlace;
use std::alloc::{AllocError, Global};
use syntax_sem::node::NodeId;
use syntax_sem::reference::ReferenceId;
use syntax_sem::scope::ScopeId;
use syntax_sem::symbol::SymbolId;

// The first so many numbers.
pub(crate) fn numbers(alloc: Global, count: usize) -> Result<Vec<Option<u32>>, AllocError>
    requires { count ≤ 2 ^ 32 - 1 }
    ensures { IfOk result (λ v. v.items ≡ first_numbers count) }
{
    let mut numbers = Vec::new(alloc);
    for n in 0..count {
        numbers.push(Some(n as u32))?;
    }
    Ok(numbers)
}

// The first so many ids of symbols.
pub(crate) fn symbol_ids(alloc: Global, count: usize) -> Result<Vec<SymbolId>, AllocError>
    requires { count ≤ 2 ^ 32 - 1 }
    ensures { IfOk result (λ v. map symbol_id.number_of v.items ≡ range_with_len 0 count) }
{
    let mut ids = Vec::new(alloc);
    for n in 0..count {
        ids.push(SymbolId::from_usize(n))?;
    }
    Ok(ids)
}

// The first so many ids of references.
pub(crate) fn reference_ids(alloc: Global, count: usize) -> Result<Vec<ReferenceId>, AllocError>
    requires { count ≤ 2 ^ 32 - 1 }
    ensures { IfOk result (λ v. map reference_id.number_of v.items ≡ range_with_len 0 count) }
{
    let mut ids = Vec::new(alloc);
    for n in 0..count {
        ids.push(ReferenceId::from_usize(n))?;
    }
    Ok(ids)
}

// The nodes of some places, as ids.
pub(crate) fn node_ids(alloc: Global, places: &[KnownPlace<'_>]) -> Result<Vec<NodeId>, AllocError>
    requires { AllByRecursion (λ n. n < 2 ^ 32 - 1) (nodes_of places.now) }
    ensures { IfOk result (λ v. map node_id.number_of v.items ≡ nodes_of places.now) }
{
    let mut ids = Vec::new(alloc);
    for known in places {
        ids.push(NodeId::from_usize(known.place.node as usize))?;
    }
    Ok(ids)
}

// The scope of this number, and the root where there is none.
#[tactic(auto, unfolding(crate::specs::ReferenceTables::or_root))]
pub(crate) fn scope_or_root(scope: Option<u32>) -> ScopeId
    requires { IfSome scope (λ s. s < 2 ^ 32 - 1) }
    ensures { scope_id.number_of result ≡ or_root scope }
{
    match scope {
        Some(scope) => ScopeId::from_usize(scope as usize),
        None => ScopeId::from_usize(0),
    }
}

// The scope of this number, if there is one.
pub(crate) fn scope_at(scope: Option<u32>) -> Option<ScopeId>
    requires { IfSome scope (λ s. s < 2 ^ 32 - 1) }
    ensures { option_map scope_id.number_of result ≡ scope }
{
    match scope {
        Some(scope) => Some(ScopeId::from_usize(scope as usize)),
        None => None,
    }
}

// The symbol of this number, if there is one.
pub(crate) fn symbol_at(symbol: Option<u32>) -> Option<SymbolId>
    requires { IfSome symbol (λ k. k < 2 ^ 32 - 1) }
    ensures { option_map symbol_id.number_of result ≡ symbol }
{
    match symbol {
        Some(symbol) => Some(SymbolId::from_usize(symbol as usize)),
        None => None,
    }
}
