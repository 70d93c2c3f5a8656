//! Which classes are open: a direct eval stands in them, at any depth.

ghost use Rattle.std.specs.Prelude.{◌≡◌, ◌<◌, ◌&&◌, ◌||◌, ℕ, List, false, IfOk, IfSome, get_or, length};
ghost use Rattle.tree_places.specs.Places.{Place};
ghost use Rattle.scope_rules.specs.Bindings.{same_name};
ghost use Rattle.scope_rules.specs.Evals.{contains, is_called, is_open, name_eval};
ghost use Rattle.class_tables.specs.Outwards.{Falls, chain_from, outer};
ghost use Rattle.class_tables.specs.Sights.{AreKnown, AreOf, evals_in, sight_of};

use crate::nearest::outer;
use crate::roles::is_called;
use place_list::{ClassEntry, PlaceEntry};
use std::alloc::{AllocError, Global};

// Of each class body whether it is open. Err is want of memory.
pub(crate) fn open_classes(
    alloc: Global,
    bodies: &[ClassEntry],
    places: &[PlaceEntry<'_>],
) -> Result<Vec<bool>, AllocError>
    requires { AreKnown bodies.now places.now }
    ensures open { IfOk result (λ v. (ps : List Place) → AreOf bodies.now places.now ps → (c : ℕ) → c < length bodies.now → get_or v.items c false ≡ is_open ps c) }
    ensures len { IfOk result (λ v. length v.items ≡ length bodies.now) }
{
    let mut open = all_closed(alloc, bodies)?;
    for place in places {
        mark_place(open.as_mut_slice(), bodies, place);
    }
    Ok(open)
}

fn all_closed(alloc: Global, bodies: &[ClassEntry]) -> Result<Vec<bool>, AllocError>
    ensures closed { IfOk result (λ v. (c : ℕ) → get_or v.items c false ≡ false) }
    ensures len { IfOk result (λ v. length v.items ≡ length bodies.now) }
{
    let mut open = Vec::new(alloc);
    for _ in bodies {
        open.push(false)?;
    }
    Ok(open)
}

// Opens the class bodies around a direct eval.
fn mark_place(flags: &mut [bool], bodies: &[ClassEntry], place: &PlaceEntry<'_>)
    requires fall { Falls (outer bodies.now) }
    requires known { IfSome place.now.setting.class_body (λ c. c < length flags.old) }
    ensures { (k : ℕ) → k < length flags.old → get_or flags.new k false ≡ (get_or flags.old k false || evals_in k (sight_of bodies.now place.now)) }
{
    if is_eval(place) {
        mark(flags, bodies, place.setting.class_body);
    }
}

// Whether the place is the callee of a direct eval.
fn is_eval(place: &PlaceEntry<'_>) -> bool
    ensures { result ≡ (is_called place.now.setting.role && same_name place.now.name.now name_eval) }
{
    is_called(place.setting.role) && is_name_eval(place.name)
}

#[tactic(auto, unfolding(scope_rules::specs::Bindings::same_name))]
fn is_name_eval(name: &str) -> bool
    ensures { result ≡ same_name name.now name_eval }
{
    name == "eval"
}

// Opens a class body and those around it.
fn mark(flags: &mut [bool], bodies: &[ClassEntry], class: Option<u32>)
    requires fall { Falls (outer bodies.now) }
    requires known { IfSome class (λ c. c < length flags.old) }
    ensures { (k : ℕ) → k < length flags.old → get_or flags.new k false ≡ (get_or flags.old k false || contains (chain_from (outer bodies.now) class) k) }
{
    let mut at = class;
    while let Some(c) = at {
        flags[c as usize] = true;
        at = outer(bodies, c);
    }
}
