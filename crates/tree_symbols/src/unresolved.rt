//! The names that references without a binding have.

ghost use Rattle.std.specs.Prelude.{◌≡◌, not, ◌&&◌, ◌||◌, IfOk, OnOk, is_some};
ghost use Rattle.std.specs.List.{list_any};
ghost use Rattle.tree_nodes.specs.Tree.{Text};
ghost use Rattle.tree_symbols.specs.Known as spec;
ghost use Rattle.tree_symbols.specs.Unresolved.{has_name, leaves_name};

use crate::known::{KnownPlace, refers};
use std::alloc::{AllocError, Global};
use std::collections::BTreeMap;

// The names that these places leave unresolved. By an ordered map, since names come from strangers, who could
// choose them to collide in a hash map whose seed is fixed. Err is want of memory.
pub(crate) fn unresolved_names<'t>(
    alloc: Global,
    places: &[KnownPlace<'t>],
) -> Result<BTreeMap<&'t str, ()>, AllocError>
    ensures { IfOk result (λ m. (x : Text) → has_name m x ≡ list_any (leaves_name x) places.now) }
{
    let mut names = BTreeMap::new(alloc);
    for known in places {
        note_name(&mut names, known)?;
    }
    Ok(names)
}

// Adds the name of a place that refers without a binding.
fn note_name<'t>(
    names: &mut BTreeMap<&'t str, ()>,
    known: &KnownPlace<'t>,
) -> Result<(), AllocError>
    ensures { OnOk result ((x : Text) → has_name names.new x ≡ (has_name names.old x || leaves_name x known.now)) }
{
    if is_unbound(known) {
        names.insert(known.place.name, ())?;
    }
    Ok(())
}

// Whether the name is among them.
pub(crate) fn is_among(names: &BTreeMap<&str, ()>, name: &str) -> bool
    ensures { result ≡ has_name names.now name.now }
{
    names.get(name).is_some()
}

// Whether it refers without a binding.
fn is_unbound(known: &KnownPlace<'_>) -> bool
    ensures { result ≡ (spec.refers known.now && not (is_some known.now.binding)) }
{
    refers(known) && known.binding.is_none()
}
