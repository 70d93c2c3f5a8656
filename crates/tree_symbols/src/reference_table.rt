//! The references of a tree.

ghost use Rattle.std.specs.Prelude.{◌≡◌, ◌<◌, ◌≤◌, ◌-◌, ◌^◌, ℕ, List, IfOk, IfSome, length, map, slice_get};
ghost use Rattle.std.specs.List.{range_with_len};
ghost use Rattle.number_tables.specs.GroupsOf.{group_at, group_count, items_of};
ghost use Rattle.scope_rules.specs.Bindings.{same_name};
ghost use Rattle.scope_rules.specs.References.{references, symbol_references};
ghost use Rattle.syntax_sem.specs.ReferenceId as reference_id;
ghost use Rattle.tree_places.specs.Places.{Place};
ghost use Rattle.tree_symbols.specs.Known.{IsRowBelow, entry_at};
ghost use Rattle.tree_symbols.specs.ReferenceTables.{AreReferences, AreReferencesOf, AreTellable, IsTellable, told, told_by, view};

use crate::flags::reference_flags;
use crate::found::find_references;
use crate::ids::{reference_ids, scope_or_root};
use crate::known::{KnownPlace, entry_at};
use crate::rows::bound_symbols;
use number_tables::Groups;
use std::alloc::{AllocError, Global};
use syntax_sem::node::NodeId;
use syntax_sem::reference::{Reference, ReferenceId};
use syntax_sem::symbol::SymbolId;

/// The references of a tree: each by its number, and by the symbols to which they refer.
#[derive(Drop)]
pub struct ReferenceTable {
    pub(crate) references: Vec<Reference>,
    pub(crate) symbol_references: Groups<ReferenceId>,
}

impl ReferenceTable {
    /// The references among some places, by a row of the numbers of so many symbols. Err is want of memory.
    pub(crate) fn new(
        alloc: Global,
        symbols: usize,
        row: &[Option<u32>],
        places: &[KnownPlace<'_>],
    ) -> Result<Self, AllocError>
        requires row { IsRowBelow symbols row.now }
        requires symbols { symbols ≤ 2 ^ 32 - 1 }
        requires places { length places.now ≤ 2 ^ 32 - 1 }
        requires tellable { AreTellable places.now }
        ensures { IfOk result (λ t. AreReferences places.now symbols row.now t) }
    {
        let found = find_references(alloc, places)?;
        let symbol_references = references_by_symbol(alloc, symbols, row, found.as_slice())?;
        let references = all_references(alloc, row, found.as_slice())?;
        Ok(ReferenceTable {
            references,
            symbol_references,
        })
    }

    /// How many references there are.
    pub fn len(&self) -> usize
        ensures { (ps : List Place) → AreReferencesOf ps self.now → result ≡ length (references ps) }
    {
        self.references.len()
    }

    /// A reference: its node, its symbol or none, its scope and what it does.
    pub fn reference(&self, i: usize) -> &Reference
        requires { i < length self.now.references.items }
        ensures { (ps : List Place) → AreReferencesOf ps self.now → IfSome (slice_get (references ps) i) (λ p. view result.now ≡ told ps p) }
    {
        &self.references[i]
    }

    /// The references to a symbol, rising.
    pub fn symbol_references(&self, k: usize) -> &[ReferenceId]
        requires { k < group_count self.now.symbol_references }
        ensures { (ps : List Place) → AreReferencesOf ps self.now → map reference_id.number_of result.now ≡ symbol_references same_name ps k }
    {
        self.symbol_references.get(k)
    }
}

// The references to each of so many symbols.
fn references_by_symbol(
    alloc: Global,
    symbols: usize,
    row: &[Option<u32>],
    references: &[KnownPlace<'_>],
) -> Result<Groups<ReferenceId>, AllocError>
    requires row { IsRowBelow symbols row.now }
    requires references { length references.now ≤ 2 ^ 32 - 1 }
    ensures count { IfOk result (λ g. group_count g ≡ symbols) }
    ensures ids { IfOk result (λ g. (k : ℕ) → map reference_id.number_of (group_at g k) ≡ items_of k (map (λ p. entry_at row.now p.binding) references.now) (range_with_len 0 (length references.now))) }
{
    let numbers = bound_symbols(alloc, row, references)?;
    let ids = reference_ids(alloc, references.len())?;
    let groups = Groups::new(alloc, symbols, numbers.as_slice(), ids.as_slice())?;
    Ok(groups)
}

// What is told of each of some references.
fn all_references(
    alloc: Global,
    row: &[Option<u32>],
    places: &[KnownPlace<'_>],
) -> Result<Vec<Reference>, AllocError>
    requires row { IsRowBelow (2 ^ 32 - 1) row.now }
    requires tellable { AreTellable places.now }
    ensures { IfOk result (λ v. map view v.items ≡ map (told_by row.now) places.now) }
{
    let mut references = Vec::new(alloc);
    for known in places {
        references.push(reference_of(row, known))?;
    }
    Ok(references)
}

// What is told of a reference.
fn reference_of(row: &[Option<u32>], known: &KnownPlace<'_>) -> Reference
    requires row { IsRowBelow (2 ^ 32 - 1) row.now }
    requires tellable { IsTellable known.now }
    ensures { view result ≡ told_by row.now known.now }
{
    let node = NodeId::from_usize(known.place.node as usize);
    let scope = scope_or_root(known.place.setting.scope);
    let flags = reference_flags(known.place.setting.role);
    match entry_at(row, known.binding) {
        Some(symbol) => {
            Reference::new_with_symbol_id(node, SymbolId::from_usize(symbol as usize), scope, flags)
        }
        None => Reference::new(node, scope, flags),
    }
}
