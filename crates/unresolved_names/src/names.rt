//! The names that references without a binding have, as a sorted set.

ghost use Rattle.std.specs.Prelude.{◌≡◌, ◌||◌, IfOk, OnOk};
ghost use Rattle.scope_rules.specs.Bindings.{same_name};
ghost use Rattle.scope_rules.specs.References.{is_unresolved};
ghost use Rattle.tree_nodes.specs.Tree.{Text};
ghost use Rattle.tree_symbols.specs.Scopings.{IsScoping, places_of};
ghost use Rattle.tree_symbols.specs.Unresolved.{has_name};
ghost use Rattle.unresolved_names.specs.Noted.{is_noted};

use std::alloc::{AllocError, Global};
use std::collections::BTreeMap;
use tree_symbols::Scoping;

/// The unresolved names of a tree: exactly those under which a reference has no binding. Err is want of memory.
pub fn unresolved_names<'t>(
    alloc: Global,
    scoping: &Scoping<'t>,
) -> Result<BTreeMap<&'t str, ()>, AllocError>
    requires { IsScoping scoping.now }
    ensures { IfOk result (λ names. (x : Text) → has_name names x ≡ is_unresolved same_name (places_of scoping.now) x) }
{
    let mut names = BTreeMap::new(alloc);
    for place in scoping.tables().list.places.as_slice() {
        note_name(scoping, &mut names, place.name)?;
    }
    Ok(names)
}

// Adds the name of a place where it is unresolved.
fn note_name<'t>(
    scoping: &Scoping<'t>,
    names: &mut BTreeMap<&'t str, ()>,
    name: &'t str,
) -> Result<(), AllocError>
    requires { IsScoping scoping.now }
    ensures { OnOk result ((x : Text) → has_name names.new x ≡ (has_name names.old x || is_noted (places_of scoping.now) x name.now)) }
{
    if scoping.is_unresolved(name) {
        names.insert(name, ())?;
    }
    Ok(())
}
