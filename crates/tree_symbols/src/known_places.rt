//! The places of a tree with what each is bound to, by the tables of its scopes.

ghost use Rattle.std.specs.Prelude.{◌≡◌, ◌<◌, IfOk, get_or, length};
ghost use Rattle.place_list.specs.TableViews.{places_in};
ghost use Rattle.scope_tables.specs.WholeTree.{AreTables};
ghost use Rattle.tree_symbols.specs.Known.{AreKnown, IsKnown};

use crate::known::{KnownPlace, number_or_none};
use scope_tables::ScopeTables;
use std::alloc::{AllocError, Global};

// Err is want of memory.
pub(crate) fn known_places<'t>(
    alloc: Global,
    tables: &ScopeTables<'t>,
) -> Result<Vec<KnownPlace<'t>>, AllocError>
    requires { AreTables tables.now }
    ensures { IfOk result (λ v. AreKnown tables.now.list v.items) }
{
    let mut known = Vec::new(alloc);
    for i in 0..tables.list.places.len() {
        known.push(known_place(tables, i))?;
    }
    Ok(known)
}

// The i-th place, from 0.
fn known_place<'t>(tables: &ScopeTables<'t>, i: usize) -> KnownPlace<'t>
    requires tables { AreTables tables.now }
    requires index { i < length tables.now.list.places.items }
    ensures place { result.place ≡ get_or tables.now.list.places.items i result.place }
    ensures known { IsKnown tables.now.list (places_in tables.now.list) result }
{
    let place = tables.list.places[i];
    let binding = number_or_none(tables.bindings(), i);
    let shadower = tables.shadower(i);
    KnownPlace {
        place,
        binding,
        shadowed: shadower.is_some(),
    }
}
