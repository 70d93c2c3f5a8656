//! Rows of numbers that are read off some places.

ghost use Rattle.std.specs.Prelude.{◌≡◌, ◌<◌, ◌≤◌, ◌-◌, ◌^◌, ℕ, IfOk, None, get_or, length, map};
ghost use Rattle.std.specs.List.{AllByRecursion};
ghost use Rattle.number_tables.specs.PlacedNumbers.{RiseFrom};
ghost use Rattle.tree_symbols.specs.Known as spec;
ghost use Rattle.tree_symbols.specs.Known.{nodes_of};
ghost use Rattle.tree_symbols.specs.SymbolTables.{IsRowOf};

use crate::ids::numbers;
use crate::known::{KnownPlace, declares, entry_at, listing_scope};
use number_tables::place_numbers;
use std::alloc::{AllocError, Global};

// A number above the nodes of some places, whose nodes rise.
pub(crate) fn above_nodes(places: &[KnownPlace<'_>]) -> usize
    requires { RiseFrom 0 (nodes_of places.now) }
    ensures { AllByRecursion (λ n. n < result) (nodes_of places.now) }
{
    if places.is_empty() {
        0
    } else {
        places[places.len() - 1].place.node as usize + 1
    }
}

// The nodes of some places.
pub(crate) fn list_nodes(alloc: Global, places: &[KnownPlace<'_>]) -> Result<Vec<u32>, AllocError>
    ensures { IfOk result (λ v. v.items ≡ nodes_of places.now) }
{
    places.iter().map(|known| known.place.node).collect(alloc)
}

// Of each node below `nodes` which of these symbols it is, if it is one. Err is want of memory.
pub(crate) fn number_symbols(
    alloc: Global,
    nodes: usize,
    symbols: &[KnownPlace<'_>],
) -> Result<Vec<Option<u32>>, AllocError>
    requires few { length symbols.now ≤ 2 ^ 32 - 1 }
    requires below { AllByRecursion (λ n. n < nodes) (nodes_of symbols.now) }
    requires rising { RiseFrom 0 (nodes_of symbols.now) }
    ensures { IfOk result (λ v. IsRowOf symbols.now v.items) }
{
    let at = list_nodes(alloc, symbols)?;
    let numbers = numbers(alloc, symbols.len())?;
    let row = place_numbers(alloc, nodes, at.as_slice(), numbers.as_slice())?;
    Ok(row)
}

// Of each place the symbol to which it is bound, by a row of the numbers of symbols.
pub(crate) fn bound_symbols(
    alloc: Global,
    row: &[Option<u32>],
    places: &[KnownPlace<'_>],
) -> Result<Vec<Option<u32>>, AllocError>
    ensures { IfOk result (λ v. v.items ≡ map (λ k. spec.entry_at row.now k.binding) places.now) }
{
    places
        .iter()
        .map(|known| entry_at(row, known.binding))
        .collect(alloc)
}

// Of each place the symbol that it declares, by the same row.
pub(crate) fn declared_symbols(
    alloc: Global,
    row: &[Option<u32>],
    places: &[KnownPlace<'_>],
) -> Result<Vec<Option<u32>>, AllocError>
    ensures { IfOk result (λ v. v.items ≡ map (spec.declared_by row.now) places.now) }
{
    places
        .iter()
        .map(|known| declared_by(row, known))
        .collect(alloc)
}

#[tactic(auto, unfolding(crate::specs::Known::declared_by))]
fn declared_by(row: &[Option<u32>], known: &KnownPlace<'_>) -> Option<u32>
    ensures { result ≡ spec.declared_by row.now known.now }
{
    if declares(known) {
        entry_at(row, known.binding)
    } else {
        None
    }
}

// The scopes that list some symbols.
pub(crate) fn listing_scopes(
    alloc: Global,
    symbols: &[KnownPlace<'_>],
) -> Result<Vec<Option<u32>>, AllocError>
    ensures { IfOk result (λ v. v.items ≡ map spec.listing_scope symbols.now) }
{
    symbols
        .iter()
        .map(|known| listing_scope(known))
        .collect(alloc)
}
