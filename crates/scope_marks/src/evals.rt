//! The scopes that hold a direct eval.

ghost use Rattle.std.specs.Prelude.{◌≡◌, [], ◌∷◌, IfOk, length, map};
ghost use Rattle.place_list.specs.Bounds.{IsBounded, IsKnown};
ghost use Rattle.place_list.specs.TableViews.{list_view, place_in, places_in, scopes_in};
ghost use Rattle.place_list.specs.declared.tables.PlaceList.{PlaceList};
ghost use Rattle.scope_marks.specs.Marks.{eval_scopes, mark_each};
ghost use Rattle.scope_rules.specs.Bindings.{same_name};
ghost use Rattle.scope_rules.specs.Evals as spec;

use crate::marks::mark_outwards;
use arena_core::BitSet;
use place_list::{PlaceEntry, PlaceList};
use std::alloc::{AllocError, Allocator};
use tree_nodes::Role;

/// The scopes in which a direct eval stands, or in one inside them. Err is want of memory.
pub fn scopes_with_evals<A: Allocator>(
    alloc: A,
    list: &PlaceList<'_>,
) -> Result<BitSet<A>, AllocError>
    requires { IsBounded (list_view list.now) }
    ensures { IfOk result (λ bits. bits ≡ map (spec.holds_eval (places_in list.now)) (scopes_in list.now)) }
{
    let mut bits = BitSet::new_in(alloc, list.scopes.len())?;
    for i in 0..list.places.len() {
        mark_eval(&mut bits, list, &list.place(i));
    }
    Ok(bits)
}

// Marks the scopes around a place that is the callee of a direct eval.
fn mark_eval<A: Allocator>(bits: &mut BitSet<A>, list: &PlaceList<'_>, place: &PlaceEntry<'_>)
    requires bounded { IsBounded (list_view list.now) }
    requires room { length bits.old ≡ length list.now.scopes.items }
    requires known { IsKnown (list_view list.now) place.now.setting }
    ensures { bits.new ≡ mark_each bits.old (eval_scopes (place_in list.now place.now ∷ [])) }
{
    if is_eval(place) {
        mark_outwards(bits, list, place.setting.scope);
    }
}

/// Whether the place is the callee of a direct eval.
#[tactic(auto, unfolding(scope_rules::specs::Evals::is_eval, place_list::specs::Tables::place_of, place_list::specs::Tables::site_of, place_list::specs::Tables::setting_of))]
pub fn is_eval(place: &PlaceEntry<'_>) -> bool
    ensures { (l : PlaceList) → result ≡ spec.is_eval (place_in l place.now) }
{
    is_called(place.setting.role) && is_name_eval(place.name)
}

#[tactic(auto, unfolding(scope_rules::specs::Evals::is_called))]
fn is_called(role: Role) -> bool
    ensures { result ≡ spec.is_called role }
{
    matches!(role, Role::Called)
}

#[tactic(auto, unfolding(scope_rules::specs::Bindings::same_name))]
fn is_name_eval(name: &str) -> bool
    ensures { result ≡ same_name name.now spec.name_eval }
{
    name == "eval"
}
