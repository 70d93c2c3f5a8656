//! The symbols and the references among some places.

ghost use Rattle.std.specs.Prelude.{◌≡◌, ◌++◌, ◌∷◌, [], IfOk, OnOk, filter, if◌then◌else◌};
ghost use Rattle.tree_symbols.specs.Known as spec;

use crate::known::{KnownPlace, is_symbol, refers};
use std::alloc::{AllocError, Global};

// Those that are their own bindings. Err is want of memory.
pub(crate) fn find_symbols<'t>(
    alloc: Global,
    places: &[KnownPlace<'t>],
) -> Result<Vec<KnownPlace<'t>>, AllocError>
    ensures { IfOk result (λ v. v.items ≡ filter spec.is_symbol places.now) }
{
    let mut symbols = Vec::new(alloc);
    for place in places {
        put_if(&mut symbols, is_symbol(place), place)?;
    }
    Ok(symbols)
}

// Those that refer to variables. Err is want of memory.
pub(crate) fn find_references<'t>(
    alloc: Global,
    places: &[KnownPlace<'t>],
) -> Result<Vec<KnownPlace<'t>>, AllocError>
    ensures { IfOk result (λ v. v.items ≡ filter spec.refers places.now) }
{
    let mut references = Vec::new(alloc);
    for place in places {
        put_if(&mut references, refers(place), place)?;
    }
    Ok(references)
}

// Puts a place where it is wanted.
fn put_if<'t>(
    found: &mut Vec<KnownPlace<'t>>,
    wanted: bool,
    place: &KnownPlace<'t>,
) -> Result<(), AllocError>
    ensures { OnOk result (found.new.items ≡ (if wanted then found.old.items ++ place.now ∷ [] else found.old.items)) }
{
    if wanted {
        found.push(*place)?;
    }
    Ok(())
}
